//! The places of a declaration and of its uses.
#![tactic(auto)]

mod places;

pub use places::references;
