//! The steps of a rule.

use crate::rules::Symbol;
use wgsl_lex_token::kind::TokenKind;

/// A step of a rule over the tokens that are left.
pub enum Step {
    /// A token of one of the kinds.
    Token(&'static [TokenKind]),
    /// The steps of a symbol.
    Rule(Symbol),
    /// The first steps where the next token is of one of the kinds, else the second.
    Choice(&'static [TokenKind], &'static [Step], &'static [Step]),
    /// The steps as long as the next token is of one of the kinds.
    Repeat(&'static [TokenKind], &'static [Step]),
}
