//! Reading attributes from tokens.
#![tactic(auto)]

mod arguments;
mod attribute_nodes;
mod attributes;
mod checks;
mod words;

pub use arguments::one_to_three;
pub use attributes::parse_attributes;
pub use words::{word_access_mode, word_address_space};
