//! The shortest text of a module.
#![tactic(auto)]

mod minified;
mod numbers;
mod shortened;
mod shortest;
mod source;
mod spaces;

pub use minified::minify_print;
pub use shortened::{shorten, shorten_within};
