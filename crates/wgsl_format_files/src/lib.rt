//! `wgsltidy` over files: each is formatted in place, or listed, or shown with what would change.
#![tactic(auto)]

mod changed;
mod config;
mod event;
mod file;
mod formatter;
mod input;
mod inputs;
mod layout;
mod printing;
mod program;
mod run;

pub use event::Event;
pub use formatter::Tidy;
pub use inputs::{Input, inputs_of};
pub use program::{refuse_argument, refuse_memory, start};
pub use run::{How, format_all};
