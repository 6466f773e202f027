//! Reading directives, and the declarations that hold no statement, from tokens, a function for
//! each rule of the grammar.
#![tactic(auto)]

mod directive;
mod structure;
mod value;

pub use directive::{parse_directive_part, parse_global_directive};
pub use structure::parse_struct_part;
pub use value::{parse_alias_part, parse_const_part, parse_override_part, parse_var_part};
