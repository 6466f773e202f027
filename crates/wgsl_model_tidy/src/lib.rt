//! What the text of a module is formatted as: its tokens and comments, and what is between them.
#![tactic(auto)]
