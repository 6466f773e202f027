//! Calls that read a text and write what they give into memory of the caller, with a status.
#![tactic(auto)]

mod answer;
mod comments;
mod deep;
mod fault;
mod laws;
mod lists;
mod minified;
mod modules;
mod packed;
mod snippets;
mod tidied;
mod tokens;
mod trees;

pub use answer::Answer;
pub use comments::write_tokens_with_comments;
pub use deep::DEPTH;
pub use laws::{packed_forms_differ, packed_json, packed_nodes, printed_packed};
pub use lists::{Place, begins_with_list, write_lists};
pub use minified::minify;
pub use modules::{check, format, measure_nesting, recognize};
pub use packed::{print, write_packed_tree};
pub use snippets::write_snippet;
pub use tidied::{Choices, tidy};
pub use tokens::{PlacedKind, write_tokens};
pub use trees::write_tree;
