//! Reading declarations of values, left sides, and the statements that hold no other statement, from tokens, a function for each rule of the grammar.
#![tactic(auto)]

mod declaration_parts;
mod initializer;
mod left_side;
mod simple;
mod value;

pub use declaration_parts::{parse_typed_ident, parse_var_kind};
pub use initializer::{parse_initializer, parse_maybe_initializer};
pub use simple::{parse_parenthesized_statement, parse_simple_part};
pub use value::{
    begins_value_part, parse_assert_part, parse_continue, parse_discard, parse_local_part,
    parse_returning_part, parse_value_part,
};
