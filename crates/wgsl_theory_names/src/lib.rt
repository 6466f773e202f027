//! Lemmas: what uses refer to after a renaming, what renamed tokens derive, and that renamed modules
//! are modules.
#![tactic(auto)]
