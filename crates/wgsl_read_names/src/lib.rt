//! The names of a text with their places.
#![tactic(auto)]

mod found;
mod text;

pub use found::{names, names_within};
pub use text::{events, events_within};
pub use wgsl_lex_names::{Branch, Declared, Entry, Event, Name, Role};
pub use wgsl_resolve_names::{Named, Names, Referent};
