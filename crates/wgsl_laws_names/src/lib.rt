//! Laws of names: what their uses refer to, and what renaming keeps; each is the contract of a
//! function that takes nothing and does nothing.
#![tactic(auto)]

pub mod name_rows;
pub mod renaming;
