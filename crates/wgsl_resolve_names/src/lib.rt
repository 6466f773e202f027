//! What the names of a module refer to.
#![tactic(auto)]

mod scope;
mod whole;

pub use scope::{Named, Referent};
pub use whole::{Names, resolve};
