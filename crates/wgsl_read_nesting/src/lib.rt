//! How deep a text nests, told from its tokens before it is parsed.
#![tactic(auto)]

mod deeper;
mod depth;
mod effect;
mod open;

pub use deeper::first_deeper;
pub use depth::nesting;
