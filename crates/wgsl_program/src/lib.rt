//! What a program writes, and its status.
#![tactic(auto)]

mod text;
mod told;

pub use text::{put, say};
pub use told::tell;
