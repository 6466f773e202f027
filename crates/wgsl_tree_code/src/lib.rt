//! Trees as named values, and the JSON that is the text form of a tree.
#![tactic(auto)]
