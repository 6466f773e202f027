//! What programs report of a text that they refuse.
#![tactic(auto)]

mod expected;
mod fault;
mod line;
mod message;
mod place;
mod undecoded;

pub use fault::{error_in_file, expecting};
pub use message::message_in_file;
pub use undecoded::undecoded_in_file;
