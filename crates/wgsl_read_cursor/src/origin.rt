//! Where tokens are from, which says how they end.

ghost use Rattle.std.specs.Prelude.{◌≡◌, IfOk, List};
ghost use Rattle.wgsl_lexer.specs.Placed.{ending_view};
ghost use Rattle.wgsl_lexer.specs.Endings.{ending_with};

use crate::message::{unexpected_end, unexpected_token};
use crate::source::{is_opening, is_out_of_memory};
use crate::{Expected, Fault, Refusal};
use std::alloc::{AllocError, Global};
use wgsl_error::{Error, ParseError};
use wgsl_lex_token::placed::PlacedToken;
use wgsl_lexer::invalid_after;
use wgsl_span::Span;

/// The text or the iterator that tokens are from.
#[derive(Drop)]
pub enum Origin<'s> {
    Text(&'s str),
    /// An iterator, with the error that it gave after them if there was one.
    Given(Option<(usize, ParseError, usize)>),
}

impl Origin<'_> {
    ghost use Rattle.std.specs.Prelude.{false};
    ghost use Rattle.grammar.specs.Tokens.{Token};
    ghost use Rattle.grammar.specs.Endings.{Ending};
    ghost use Rattle.wgsl_model.specs.Faults.Checked.{wants_memory};
    ghost use Rattle.wgsl_theory_grammar.specs.Answers.{opening};
    ghost use Rattle.wgsl_error.specs.View.{fault_view};
    ghost use Rattle.wgsl_lex_token.specs.Placed.{placed_view};
    ghost use Rattle.wgsl_read_cursor.specs.Answers.{IsToldOf, IsToldOfRefusal, end_fault};
    ghost use Rattle.wgsl_read_cursor.specs.Origins.{AreOf, IsLastOf, IsFaultOf, IsRefusedOf};

    /// Whether an allocation failed for a token.
    fn is_out_of_memory(&self) -> bool
        ensures { (ts : List Token) (ending : Ending) →
            AreOf self.now ts ending → result ≡ wants_memory ending }
    {
        match self {
            Origin::Text(_) => false,
            Origin::Given(error) => is_out_of_memory(error),
        }
    }

    /// Whether a token is the `(` that is after tokens for which an allocation failed.
    fn is_opening(&self, token: &PlacedToken) -> bool
        ensures { (ts : List Token) (ending : Ending) → AreOf self.now ts ending →
            result ≡ false → placed_view token.now ≡ opening → wants_memory ending ≡ false }
    {
        if !self.is_out_of_memory() {
            return false;
        }
        is_opening(token)
    }

    /// The error that ended the tokens if there was one, where the last of them ends at the place.
    pub(crate) fn error(self, place: usize) -> Option<(usize, ParseError, usize)>
        ensures { (ts : List Token) (ending : Ending) → AreOf self.entry ts ending →
            IsLastOf self.entry place ts → ending ≡ ending_view result }
    {
        match self {
            Origin::Text(source) => invalid_token(invalid_after(source, place)),
            Origin::Given(error) => error,
        }
    }

    /// The error of tokens that end too early, the last of them at a place: the one that ended
    /// them, or else that a token is missing.
    fn unexpected_end(
        self,
        alloc: Global,
        place: usize,
        expected: Expected,
    ) -> Result<Error, AllocError>
        ensures { IfOk result (λ e. (ts : List Token) (ending : Ending) →
            AreOf self.entry ts ending → IsLastOf self.entry place ts →
            fault_view e ≡ end_fault ending place) }
    {
        match self.error(place) {
            Some(error) => Ok(Error::from(error)),
            None => unexpected_end(alloc, place, expected),
        }
    }

    /// The error of what stopped a parse function.
    pub(crate) fn name(self, alloc: Global, fault: Fault) -> Result<Error, AllocError>
        ensures { IfOk result (λ e. (ts : List Token) (ending : Ending) →
            AreOf self.entry ts ending → IsFaultOf self.entry fault ts →
            IsToldOf fault ending e) }
    {
        match fault {
            Fault::Refused(refusal) => self.name_refusal(alloc, Box::into_inner(refusal)),
            Fault::OutOfMemory => Err(AllocError),
        }
    }

    /// The error of what was refused.
    fn name_refusal(self, alloc: Global, refusal: Refusal) -> Result<Error, AllocError>
        ensures { IfOk result (λ e. (ts : List Token) (ending : Ending) →
            AreOf self.entry ts ending → IsRefusedOf self.entry refusal ts →
            IsToldOfRefusal refusal ending e) }
    {
        match refusal {
            Refusal::UnexpectedToken(token, expected) => {
                if self.is_opening(&token) {
                    return Err(AllocError);
                }
                unexpected_token(alloc, token, expected)
            }
            Refusal::UnexpectedEnd { place, expected } => {
                self.unexpected_end(alloc, place, expected)
            }
            Refusal::Checked(error) => Ok(error),
        }
    }
}

/// The error of an invalid token, if there is one.
fn invalid_token(found: Option<Span>) -> Option<(usize, ParseError, usize)>
    ensures { ending_with found ≡ ending_view result }
{
    match found {
        Some(span) => Some((span.start, ParseError::LexerError, span.end)),
        None => None,
    }
}
