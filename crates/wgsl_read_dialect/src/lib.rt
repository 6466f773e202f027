//! Recognising a text: whether its tokens are a module, where nothing is checked. The rules are
//! steps over tokens.
#![tactic(auto)]

mod accept;
mod dialect;
mod expressions;
mod parsed;
mod recognize;
mod rules;
mod simple;
mod statements;
mod step;
mod units;

pub use recognize::{check_syntax, recognize_str};
