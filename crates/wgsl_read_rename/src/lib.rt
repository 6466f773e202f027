//! A declaration of a text renamed, with its uses.
#![tactic(auto)]

mod text;

pub use text::{rename, rename_within};
pub use wgsl_rename::{Refusal, RenameError};
