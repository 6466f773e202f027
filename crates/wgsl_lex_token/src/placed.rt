//! Tokens where they are.

use crate::token::Token;
use wgsl_span::Span;

/// A token and where it is.
#[derive(PartialEq, Debug, Drop)]
pub struct PlacedToken {
    pub token: Token,
    pub span: Span,
}
