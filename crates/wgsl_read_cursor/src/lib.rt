//! The tokens that are left to be read, why reading stops, and what is answered then.
#![tactic(auto)]

mod answer;
pub mod cursor;
pub mod expected;
pub mod fault;
mod lists;
mod message;
mod origin;
mod source;
mod tokens;
pub mod word;

pub use cursor::Cursor;
pub use expected::Expected;
pub use fault::{Fault, Refusal};
pub use lists::add;
pub use source::{TokenSource, is_out_of_memory};
pub use word::Word;
