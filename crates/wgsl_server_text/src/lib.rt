//! The text of a document, with places in it as the Language Server Protocol counts them.
#![tactic(auto)]

mod document;
mod encoding;
mod laws;
mod lines;
mod places;
mod position;

pub use document::{Document, EditError};
pub use encoding::PositionEncoding;
pub use laws::{offsets_and_back, ranges_and_back, units_of_characters};
pub use position::{Position, Range};
