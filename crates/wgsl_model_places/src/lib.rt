//! The names of a text with their places: what each is, and what is in scope where.
#![tactic(auto)]
