//! What the names of a module refer to, and what renaming makes of a module.
#![tactic(auto)]
