//! The tokens that are left, those of a text or those that were given.
#![tactic(auto, unfolding(crate::specs::Tokens::rest_of))]

ghost use Rattle.std.specs.Prelude.{◌≡◌, [], drop, IfOk, IfSome, MatchOption};
ghost use Rattle.wgsl_lexer.specs.TextTokens.{StartWithKind, BeginAt, BeginWithName, IsTaken};
ghost use Rattle.wgsl_read_cursor.specs.Tokens.{rest_of};

use std::alloc::AllocError;
use std::collections::VecDeque;
use wgsl_lex_token::kind::TokenKind;
use wgsl_lex_token::placed::PlacedToken;
use wgsl_lexer::TextTokens;
use wgsl_span::Span;

/// The tokens that are left.
#[derive(Drop)]
pub(crate) enum Tokens<'s> {
    Text(TextTokens<'s>),
    Given(VecDeque<PlacedToken>),
}

impl<'s> Tokens<'s> {
    /// Which token is next, if there is one.
    #[inline(always)]
    pub(crate) fn kind(&self) -> Option<TokenKind>
        ensures { MatchOption result (rest_of self.now ≡ []) (StartWithKind (rest_of self.now)) }
    {
        match self {
            Tokens::Text(tokens) => tokens.kind(),
            Tokens::Given(tokens) => Some(tokens.front()?.token.kind()),
        }
    }

    /// Where the next token is, if there is one.
    #[inline(always)]
    pub(crate) fn span(&self) -> Option<Span>
        ensures { MatchOption result (rest_of self.now ≡ []) (BeginAt (rest_of self.now)) }
    {
        match self {
            Tokens::Text(tokens) => tokens.span(),
            Tokens::Given(tokens) => Some(tokens.front()?.span),
        }
    }

    /// The name that is next in a text, if there is one. One that was given is moved: see `take`.
    #[inline(always)]
    pub(crate) fn name(&self) -> Option<&'s str>
        ensures { IfSome result (λ name. BeginWithName (rest_of self.now) name.now) }
    {
        match self {
            Tokens::Text(tokens) => tokens.name(),
            Tokens::Given(_) => None,
        }
    }

    /// Goes after the next token, if there is one.
    pub(crate) fn skip(&mut self)
        ensures { rest_of self.new ≡ drop 1 (rest_of self.old) }
    {
        match self {
            Tokens::Text(tokens) => tokens.skip(),
            Tokens::Given(tokens) => {
                tokens.pop_front();
            }
        }
    }

    /// Takes the next token, if there is one.
    pub(crate) fn take(&mut self) -> Result<Option<PlacedToken>, AllocError>
        ensures { IfOk result (λ taken. IsTaken (rest_of self.old) taken (rest_of self.new)) }
    {
        match self {
            Tokens::Text(tokens) => tokens.take(),
            Tokens::Given(tokens) => Ok(tokens.pop_front()),
        }
    }
}
