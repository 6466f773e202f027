//! The tokens of a text, one after the other, and the iterators that give tokens.
#![tactic(auto)]

mod collect;
mod ending;
mod ends;
mod lexer;
mod source;
mod text_tokens;
mod token_iterator;

pub use collect::{Collected, collect_tokens};
pub use ending::invalid_after;
pub use lexer::Lexer;
pub use source::{lex, recognize_template_list};
pub use text_tokens::TextTokens;
pub use token_iterator::{FiniteTokens, TokenItem, TokenIterator};
pub use wgsl_lex_templates::{Templates, discover};
