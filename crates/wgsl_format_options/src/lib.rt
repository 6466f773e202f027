//! The arguments of `wgsltidy`: what they ask for.
#![tactic(auto)]

mod chosen;
mod command;
mod options;

pub use options::{Mode, Options, Source, read_options};
