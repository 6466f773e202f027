//! The shortest text that has the tokens of a source.
#![tactic(auto)]
