//! The token at the front of a text.
#![tactic(auto)]

pub mod characters;
mod digits;
mod float;
pub mod lexeme;
mod number;
pub mod scan;
mod symbol;
pub mod text;
pub mod trivia;
mod word;
mod word_table;
