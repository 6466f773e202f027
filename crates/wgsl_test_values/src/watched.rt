//! The tokens of a text, from an iterator that knows what is asked of it after an error.

ghost use Rattle.std.specs.Iterator.{at_most};
ghost use Rattle.std.proofs.Common.{rules};

use std::alloc::{AllocError, Global};
use std::cell::Cell;
use wgsl_parse::lexer::{FiniteTokens, Lexer, TokenItem};

/// Gives the tokens of a text, and reports if it is asked after an error.
#[derive(Drop)]
pub(crate) struct Watched<'w> {
    tokens: Lexer<'w>,
    /// How many items it still gives at most.
    left: usize,
    is_over: bool,
    is_asked_after: &'w Cell<bool>,
}

impl<'w> Watched<'w> {
    pub(crate) fn new(
        alloc: Global,
        text: &'w str,
        is_asked_after: &'w Cell<bool>,
    ) -> Result<Watched<'w>, AllocError> {
        Ok(Watched {
            tokens: Lexer::new(alloc, text)?,
            left: text.len().saturating_add(1),
            is_over: false,
            is_asked_after,
        })
    }
}

impl Iterator for Watched<'_> {
    type Item = TokenItem;

    ghost remaining = { λ watched. at_most watched.left };

    fn next(&mut self) -> Option<TokenItem> {
        if self.is_over {
            self.is_asked_after.set(true);
        }
        self.left = self.left.checked_sub(1)?;
        let item = self.tokens.next()?;
        self.is_over = item.is_err();
        Some(item)
    }
}

impl FiniteTokens for Watched<'_> {
    ghost is_bounded = { Prim.search rules };
}
