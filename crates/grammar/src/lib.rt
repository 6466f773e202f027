//! Grammars as data: what they derive, a reader with one token of lookahead, and its laws.
#![tactic(auto)]
