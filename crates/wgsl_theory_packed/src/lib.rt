//! What is printed of the packed form of a tree is the print of the tree.
#![tactic(auto)]
