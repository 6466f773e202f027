//! The names that a module uses and declares, as one list.
#![tactic(auto)]

mod attribute_nodes;
mod collected;
mod declared;
mod expression;
mod named;
mod simple_nodes;
mod statement_nodes;
mod unit;
mod unit_nodes;

pub use collected::{Branch, Occurrence};
pub use unit::occurrences;
