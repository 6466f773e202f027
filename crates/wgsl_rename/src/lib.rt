//! A declaration renamed, with its uses, or what is in the way of it.
#![tactic(auto)]

mod changed;
mod edit;
mod error;
mod new_name;
mod target;
mod whole;

pub use error::{Refusal, RenameError};
pub use whole::renamed_places;
