//! Why tokens could not be read.
#![tactic(auto, unfolding(crate::proofs::Hints::definitions))]

ghost use Rattle.std.specs.Prelude.{◌≡◌};
ghost use Rattle.wgsl_read_cursor.specs.declared.fault.Fault.TheVariants.{OutOfMemory};

use crate::expected::Expected;
use std::alloc::{AllocError, AllocFailed, Global};
use wgsl_error::Error;
use wgsl_lex_token::placed::PlacedToken;

/// A token or an end that was refused, with what could be in its place, or what a check found.
#[derive(Drop)]
pub enum Refusal {
    UnexpectedToken(PlacedToken, Expected),
    /// No token was left, and the last one that was taken ended at the place.
    UnexpectedEnd { place: usize, expected: Expected },
    /// What a check of the grammar found.
    Checked(Error),
}

/// The reason why tokens could not be read. A refusal is boxed, so that a result with a fault is
/// hardly larger than its value.
#[derive(Drop)]
pub enum Fault {
    Refused(Box<Refusal>),
    OutOfMemory,
}

impl Fault {
    ghost use Rattle.grammar.specs.States.{Stop.unexpected, Stop.ended, Stop.faulty};
    ghost use Rattle.wgsl_error.specs.View.{fault_view};
    ghost use Rattle.wgsl_lex_token.specs.Placed.{placed_view};
    ghost use Rattle.wgsl_read_cursor.specs.Reading.{refusal_stop, Tells};

    /// Returns the fault of a token that can't be where it is.
    #[inline(never)]
    pub fn unexpected_token(alloc: Global, token: PlacedToken, expected: Expected) -> Fault
        ensures { Tells result (unexpected (placed_view token)) }
    {
        Fault::refused(alloc, Refusal::UnexpectedToken(token, expected))
    }

    /// The fault of tokens that end too early, the last of them at a place.
    #[inline(never)]
    pub(crate) fn unexpected_end(alloc: Global, place: usize, expected: Expected) -> Fault
        ensures { Tells result (ended place) }
    {
        Fault::refused(alloc, Refusal::UnexpectedEnd { place, expected })
    }

    /// Returns the fault of what a check of the grammar found.
    #[inline(never)]
    pub fn checked(alloc: Global, error: Error) -> Fault
        ensures { Tells result (faulty (fault_view error)) }
    {
        Fault::refused(alloc, Refusal::Checked(error))
    }

    fn refused(alloc: Global, refusal: Refusal) -> Fault
        ensures { Tells result (refusal_stop refusal) }
    {
        match Box::new(alloc, refusal) {
            Ok(refusal) => Fault::Refused(refusal),
            Err(error) => Fault::from(error),
        }
    }
}

impl From<AllocError> for Fault {
    ghost from_gives = { λ _ fault. fault ≡ OutOfMemory };

    fn from(_error: AllocError) -> Fault {
        Fault::OutOfMemory
    }
}

impl<T: Drop> From<AllocFailed<T>> for Fault {
    ghost from_gives = { λ _ fault. fault ≡ OutOfMemory };

    fn from(_error: AllocFailed<T>) -> Fault {
        Fault::OutOfMemory
    }
}
