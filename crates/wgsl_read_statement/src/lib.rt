//! Reading statements from tokens, a function for each rule of the grammar.
#![tactic(auto)]

mod block;
mod if_chain;
mod loops;
mod statement;
mod switch;

pub use block::parse_compound_statement;
pub use statement::parse_statement;
