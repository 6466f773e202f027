//! The JSON of names with their new names.
#![tactic(auto)]

mod map;
mod text;

pub use map::map_text;
