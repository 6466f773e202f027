//! `wgslmin`: a module is read, minified and written, with the names that got new ones.
#![tactic(auto)]

mod failure;
mod host;
mod kept;
mod minified;
mod options;
mod program;
mod run;
mod written;

pub use host::HostOutputs;
pub use options::{Options, Target, read_options};
pub use program::{refuse_argument, refuse_memory, start};
