//! The tokens that are to be read, and where they are from.

ghost use Rattle.std.specs.Prelude.{◌≡◌, IfOk, IsTrue};
ghost use Rattle.wgsl_model.specs.Faults.Checked.{wants_memory};
ghost use Rattle.wgsl_lex_token.specs.Placed.{placed_view};
ghost use Rattle.wgsl_lexer.specs.Placed.{ending_view};
ghost use Rattle.wgsl_theory_grammar.specs.Answers.{opening};

use crate::Cursor;
use crate::origin::Origin;
use std::alloc::{AllocError, Global};
use wgsl_error::ParseError;
use wgsl_lex_token::placed::PlacedToken;
use wgsl_lex_token::token::Token;
use wgsl_lexer::{Collected, TextTokens};
use wgsl_span::Span;

/// Tokens that are to be read, and where they are from.
#[derive(Drop)]
pub struct TokenSource<'s> {
    pub tokens: Cursor<'s>,
    pub(crate) origin: Origin<'s>,
}

impl<'s> TokenSource<'s> {
    ghost use Rattle.std.specs.Prelude.{chars, List};
    ghost use Rattle.grammar.specs.Tokens as grammar;
    ghost use Rattle.grammar.specs.Endings.{Ending};
    ghost use Rattle.wgsl_model.specs.Tokens.TokenList.{IsTokenList};
    ghost use Rattle.wgsl_lexer.specs.Placed.{tokens_view};
    ghost use Rattle.wgsl_lexer.specs.TextTokens.{tokens_left, ending_left};
    ghost use Rattle.wgsl_read_cursor.specs.Origins.{IsSourceOf};

    /// Returns the tokens of a text, which may nest a number of levels deep.
    pub fn of_text(
        alloc: Global,
        text: &'s str,
        depth: usize,
    ) -> Result<TokenSource<'s>, AllocError>
        ensures { IfOk result (λ source. (ts : List grammar.Token) × (ending : Ending) ×
            IsTokenList (chars text.now) ts ending × IsSourceOf source ts ending) }
    {
        let tokens = TextTokens::new(alloc, text)?;
        Ok(TokenSource::of_tokens(alloc, text, tokens, depth))
    }

    /// Returns the tokens of a text that are found already, which may nest a number of levels deep.
    pub fn of_tokens(
        alloc: Global,
        text: &'s str,
        tokens: TextTokens<'s>,
        depth: usize,
    ) -> TokenSource<'s>
        requires { IsTokenList
            (chars text.now) (tokens_left tokens) (ending_left tokens) }
        ensures { IsSourceOf result (tokens_left tokens.entry) (ending_left tokens.entry) }
    {
        TokenSource {
            tokens: Cursor::of_text(alloc, tokens, depth),
            origin: Origin::Text(text),
        }
    }

    /// Returns the tokens of an iterator. Where an allocation failed for what follows them a `(` is
    /// after, so that an attribute at the end is not reported to lack its arguments.
    pub fn new(found: Collected) -> Result<TokenSource<'s>, AllocError>
        ensures { IfOk result (λ source.
            IsSourceOf source (tokens_view found) (ending_view found.error)) }
    {
        let Collected { mut tokens, error } = found;
        if is_out_of_memory(&error) {
            tokens.push_back(opening())?;
        }
        Ok(TokenSource {
            tokens: Cursor::new(tokens),
            origin: Origin::Given(error),
        })
    }
}

/// Returns whether an allocation failed for a token.
pub fn is_out_of_memory(error: &Option<(usize, ParseError, usize)>) -> bool
    ensures { result ≡ wants_memory (ending_view error.now) }
{
    matches!(error, Some((_, ParseError::OutOfMemory, _)))
}

/// The `(` that is after tokens that ended because an allocation failed.
fn opening() -> PlacedToken
    ensures { placed_view result ≡ opening }
{
    PlacedToken {
        token: Token::SymParenLeft,
        span: Span { start: 0, end: 0 },
    }
}

/// Whether a token is that `(`, or one that looks like it.
pub(crate) fn is_opening(token: &PlacedToken) -> bool
    ensures { placed_view token.now ≡ opening → IsTrue result }
{
    *token == opening()
}
