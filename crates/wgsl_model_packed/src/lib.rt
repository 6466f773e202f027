//! The packed form of a tree, for programs that read and print many, and what is printed of it.
#![tactic(auto)]
