//! Unified diffs: lines that differ between two texts, with those around them.
#![tactic(auto)]

mod hunk;
mod line;
mod lines;
mod matching;
mod printing;

pub use hunk::{Hunk, hunks};
pub use line::Line;
pub use lines::lines_of;
pub use matching::script;
pub use printing::push_diff;
