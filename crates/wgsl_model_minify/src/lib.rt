//! What a minified module is: its names as a list, and the new names that they get.
#![tactic(auto)]
