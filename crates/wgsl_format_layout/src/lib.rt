//! The formatted text of a source: its tokens and comments, with new white space between.
#![tactic(auto)]

mod ahead;
mod block;
mod comment;
mod context;
mod decided;
mod gap;
mod joint;
mod layout;
mod line;
mod marks;
mod opened;
mod operands;
mod output;
mod places;
mod role;
mod state;
mod text;

pub use layout::{Indent, Layout, Newlines};
pub use output::laid_out;
