//! Trees with their names replaced.
#![tactic(auto)]

mod attribute;
mod attribute_nodes;
mod chain;
mod expression;
mod ident;
mod new_names;
mod simple_nodes;
mod statement_nodes;
mod surrounding;
mod traits;
mod unit;
mod unit_nodes;

pub use new_names::NewNames;
pub use unit::rename;
