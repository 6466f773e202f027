//! Statements without the `;` that ends them.

/// A statement that is printed without the `;` that ends it.
#[derive(Drop)]
pub struct Unended<'a, T>(pub &'a T);
