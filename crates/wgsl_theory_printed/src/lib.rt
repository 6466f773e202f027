//! What holds of the definitions of tokens, grammar and printed text alone.
#![tactic(auto)]
