//! What happens to names at each token of a text.
#![tactic(auto)]

mod item;
mod reader;
mod role;
mod sign;
mod state;

pub use reader::Reader;
pub use role::{Branch, Declared, Entry, Event, Name, Role};
pub use sign::{has_text, is_name};
