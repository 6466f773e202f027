//! The tokens of an iterator, up to its first error.

ghost use Rattle.std.specs.Prelude.{IfOk};
ghost use Rattle.wgsl_lexer.specs.Given.{Gave};

use crate::token_iterator::TokenIterator;
use std::alloc::{AllocError, Global};
use std::collections::VecDeque;
use wgsl_error::ParseError;
use wgsl_lex_token::placed::PlacedToken;
use wgsl_span::Span;

/// Tokens, and the error that ended them if there was one, from its start to its end.
#[derive(Debug, Drop)]
pub struct Collected {
    pub tokens: VecDeque<PlacedToken>,
    pub error: Option<(usize, ParseError, usize)>,
}

/// Collects the tokens up to the first error, which is the last item that is asked for.
pub fn collect_tokens<T: TokenIterator>(alloc: Global, tokens: T) -> Result<Collected, AllocError>
    ensures { IfOk result (λ found.
        (it : T.IntoIter) × T.into_iter_gives tokens it × Gave T.IntoIter.next_gives it found) }
{
    let mut placed = VecDeque::new(alloc);
    for item in tokens {
        match item {
            Ok((start, token, end)) => placed.push_back(PlacedToken {
                token,
                span: Span { start, end },
            })?,
            Err(error) => {
                return Ok(Collected {
                    tokens: placed,
                    error: Some(error),
                });
            }
        }
    }
    Ok(Collected {
        tokens: placed,
        error: None,
    })
}
