//! Tests of documents with their positions, and of the protocol's frames and messages.
#![tactic(auto)]

#[cfg(test)]
mod documents;
#[cfg(test)]
mod messages;
