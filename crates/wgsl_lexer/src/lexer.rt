//! The tokens of a text, one after the other.

use crate::text_tokens::TextTokens;
use crate::token_iterator::TokenItem;
use std::alloc::{AllocError, Global};
use wgsl_error::ParseError;
use wgsl_lex_token::placed::PlacedToken;
use wgsl_span::Span;

/// A lexer over a text: it gives the tokens, and then the fault that ends them if there is one.
/// After a fault it gives nothing more.
#[derive(Drop)]
pub struct Lexer<'s> {
    tokens: TextTokens<'s>,
}

impl<'s> Lexer<'s> {
    ghost use Rattle.std.specs.Prelude.{◌≡◌, ◌↔◌, List, chars, IfOk, Err};
    ghost use Rattle.grammar.specs.Tokens as grammar;
    ghost use Rattle.grammar.specs.Endings.{Ending};
    ghost use Rattle.wgsl_model.specs.Tokens.TokenList.{IsTokenList};
    ghost use Rattle.wgsl_lexer.specs.Left.{IsLeft, HasEnded};

    /// Creates a lexer over a text.
    pub fn new(alloc: Global, source: &'s str) -> Result<Lexer<'s>, AllocError>
        ensures { IfOk result (λ lexer. (ts : List grammar.Token) (e : Ending) →
            IsTokenList (chars source.now) ts e ↔ IsLeft lexer ts e) }
    {
        let tokens = TextTokens::new(alloc, source)?;
        Ok(Lexer { tokens })
    }

    /// Returns a lexer that gives the items that are left.
    pub fn clone(&self, alloc: Global) -> Result<Self, AllocError>
        ensures { IfOk result (λ copy.
            (ts : List grammar.Token) (e : Ending) → IsLeft self.now ts e ↔ IsLeft copy ts e) }
    {
        let tokens = self.tokens.clone(alloc)?;
        Ok(Lexer { tokens })
    }

    /// The error of a span, after which nothing is given.
    fn fail(&mut self, span: Span, error: ParseError) -> TokenItem
        ensures given { result ≡ Err (span.start, error, span.end) }
        ensures ended { HasEnded self.new }
    {
        self.tokens.finish();
        Err((span.start, error, span.end))
    }
}

impl<'s> Iterator for Lexer<'s> {
    type Item = TokenItem;

    ghost use Rattle.std.specs.Iterator.{at_most};
    ghost use Rattle.wgsl_lexer.specs.Left.{GivesItem, items_left};

    ghost next_gives = { GivesItem };

    ghost remaining = { λ l. at_most (items_left l) };

    fn next(&mut self) -> Option<TokenItem> {
        let Some(span) = self.tokens.span() else {
            let span = self.tokens.invalid()?;
            return Some(self.fail(span, ParseError::LexerError));
        };
        match self.tokens.take() {
            Ok(taken) => {
                let PlacedToken { token, span } = taken?;
                Some(Ok((span.start, token, span.end)))
            }
            Err(error) => Some(self.fail(span, ParseError::from(error))),
        }
    }
}
