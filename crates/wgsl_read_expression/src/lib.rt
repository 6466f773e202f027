//! Reading expressions from tokens, a function for each rule of the grammar.
#![tactic(auto)]

mod arguments;
mod expression;
mod nodes;
mod operators;
mod primary;
mod sums;
mod terminals;
mod types;
mod unary;

pub use arguments::parse_arguments;
pub use expression::parse_expression;
pub use primary::parse_components;
pub use terminals::{parse_ident, parse_literal};
pub use types::{parse_template_list, parse_type_specifier};
