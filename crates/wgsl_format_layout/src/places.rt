//! The places of the tokens that open what is still open.

ghost use Rattle.std.specs.Prelude.{◌≡◌, ◌<◌, ◌==◌, [], ◌∷◌, length, IfOk, MatchOption};
ghost use Rattle.wgsl_format_layout.specs.View.{role_view};
ghost use Rattle.wgsl_format_layout.specs.Closing.{AreBelow, with_close, tokens_after, open_after, with_closes};

use crate::marks::MarkedToken;
use crate::role::Role;
use std::alloc::{AllocError, Global};
use std::marker::Model;

/// A stack of places, the innermost last; seen as a list, the innermost first.
#[derive(Drop)]
pub struct Places {
    items: Vec<usize>,
}

impl Model for Places {
    ghost use Rattle.std.specs.Prelude.{ℕ, List, reverse};

    ghost Value = { List ℕ };

    ghost view = { λ places. reverse places.items.items };
}

/// Keeps where that is closed which a token opens.
fn close_at(tokens: &mut Vec<MarkedToken>, place: usize, close: usize)
    requires { place < length tokens.old.items }
    ensures { tokens.new.items ≡ with_close tokens.old.items place close }
{
    tokens[place].close = close;
}

impl Places {
    pub(crate) fn new(alloc: Global) -> Places
        ensures { result ≡ [] }
    {
        Places {
            items: Vec::new(alloc),
        }
    }

    pub(crate) fn is_empty(&self) -> bool
        ensures { result ≡ (length self.now == 0) }
    {
        self.items.is_empty()
    }

    pub(crate) fn clear(&mut self)
        ensures { self.new ≡ [] }
    {
        self.items.clear();
    }

    fn push(&mut self, place: usize) -> Result<(), AllocError>
        ensures { IfOk result (λ _. self.new ≡ place ∷ self.old) }
    {
        self.items.push(place)?;
        Ok(())
    }

    /// Takes the innermost, if there is one.
    fn pop(&mut self) -> Option<usize>
        ensures { MatchOption result ((self.old ≡ []) × (self.new ≡ [])) (λ place.
            self.old ≡ place ∷ self.new) }
    {
        self.items.pop()
    }

    /// Keeps what the token at a place opens or closes, which does this.
    pub(crate) fn pass(
        &mut self,
        tokens: &mut Vec<MarkedToken>,
        place: usize,
        role: Role,
    ) -> Result<(), AllocError>
        requires { AreBelow (length tokens.old.items) self.old }
        ensures tokens { IfOk result (λ _. tokens.new.items
            ≡ tokens_after (role_view role) place tokens.old.items self.old) }
        ensures open { IfOk result (λ _. self.new ≡ open_after (role_view role) place self.old) }
    {
        if role.opens() {
            return self.push(place);
        }
        if role.closes() {
            if let Some(first) = self.pop() {
                close_at(tokens, first, place);
            }
        }
        Ok(())
    }

    /// Keeps that nothing closes what is still open.
    pub(crate) fn leave(&mut self, tokens: &mut Vec<MarkedToken>)
        requires { AreBelow (length tokens.old.items) self.old }
        ensures closes { tokens.new.items
            ≡ with_closes (length tokens.old.items) tokens.old.items self.old [] }
        ensures len { length tokens.new.items ≡ length tokens.old.items }
    {
        let end = tokens.len();
        'places: while let Some(place) = self.pop() {
            close_at(tokens, place, end);
        }
    }
}
