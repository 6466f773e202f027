//! The grammar in the form in which one token decides, and the tokens of a text.
#![tactic(auto)]
