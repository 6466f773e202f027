//! Laws of the names of tokens, each the contract of a function that takes nothing and does nothing.
#![tactic(auto)]

pub mod edits;
pub mod place_rows;
