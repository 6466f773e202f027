//! The tokens that are written from a tree, and what they derive.
#![tactic(auto)]
