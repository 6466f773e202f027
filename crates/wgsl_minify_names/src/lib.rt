//! The new names of a module's names.
#![tactic(auto)]

mod counted;
mod scope;
mod set;
mod short;
mod staying;
mod table;

pub use table::{Which, choose};
