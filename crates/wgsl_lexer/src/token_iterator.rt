//! Iterators that give tokens.

ghost use Rattle.std.specs.Prelude.{◌≡◌};
ghost use Rattle.std.specs.Iterator.{IsFiniteIterable};
ghost use Rattle.std.proofs.Common.{rules};

use crate::lexer::Lexer;
use wgsl_error::ParseError;
use wgsl_lex_token::token::Token;

/// A token, or what is wrong in its place; each with the byte where it starts and the byte where it
/// ends.
pub type TokenItem = Result<(usize, Token, usize), (usize, ParseError, usize)>;

/// A source of tokens: a finite iterator that may be dropped and always be asked for the next item.
pub trait TokenIterator: IntoIterator<Item = TokenItem, IntoIter: Drop> {
    ghost is_finite: { (tokens : Self) → IsFiniteIterable Self.into_iter_gives Self.IntoIter.can_next Self.IntoIter.remaining tokens };
}

/// An iterator of tokens that ends, whatever it holds.
pub trait FiniteTokens: Iterator<Item = TokenItem> + Drop {
    ghost is_bounded: { (tokens : Self) → IsFiniteIterable (λ (given it : Self). it ≡ given) Self.can_next Self.remaining tokens };
}

impl<I: FiniteTokens> TokenIterator for I {
    ghost is_finite = { Prim.search rules };
}

impl TokenIterator for Vec<TokenItem> {
    ghost is_finite = { Prim.search rules };
}

impl<'s> FiniteTokens for Lexer<'s> {
    ghost is_bounded = { Prim.search rules };
}
