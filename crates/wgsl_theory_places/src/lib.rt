//! Lemmas on the names of tokens.
#![tactic(auto)]
