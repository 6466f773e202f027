//! The shortest text of a source has its tokens, and needs its spaces.
#![tactic(auto)]
