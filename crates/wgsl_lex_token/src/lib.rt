//! Tokens, their kinds and their texts.
#![tactic(auto)]

pub mod kind;
mod kind_table;
pub mod placed;
pub mod token;
mod token_table;
