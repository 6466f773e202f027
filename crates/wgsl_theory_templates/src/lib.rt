//! Template lists among tokens: where a text has them, and where the tokens that are written from its tree have them, as lemmas.
#![tactic(auto)]
