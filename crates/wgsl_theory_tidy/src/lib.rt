//! What is between the pieces of a laid-out text, and that it keeps them.
#![tactic(auto)]
