//! Blank space and comments of a source, of which each comment is passed over once.
#![tactic(auto)]

mod comments;
mod trivia;

pub use comments::Comments;
