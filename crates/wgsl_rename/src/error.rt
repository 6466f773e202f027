//! Why a name is not renamed.

ghost use Rattle.std.specs.Prelude.{◌≡◌};
ghost use Rattle.wgsl_error.specs.Kinds.{error_at};
ghost use Rattle.wgsl_error.specs.declared.ParseError.TheVariants as parse;
ghost use Rattle.wgsl_rename.specs.declared.error.RenameError.TheVariants as rename;

use std::alloc::AllocError;
use wgsl_error::Error;
use wgsl_span::Span;

/// What is in the way of a new name.
#[derive(Clone, Copy, PartialEq, Debug)]
pub enum Refusal {
    /// No name is at the place.
    NoName,
    /// It is a member of a structure, or components of a vector.
    Member,
    /// The module does not declare it.
    Outside,
    /// The new name is no identifier.
    NoIdentifier,
    /// The new name is a keyword.
    Keyword,
    /// The new name is a reserved word.
    Reserved,
    /// A use would refer to something else.
    Captured,
}

/// Why nothing is renamed.
#[derive(PartialEq, Debug, Drop)]
pub enum RenameError {
    /// The text is not a module, or an allocation failed.
    Fault(Error),
    /// What is in the way, and where it is.
    Refused(Refusal, Span),
}

impl From<Error> for RenameError {
    ghost from_gives = { λ error e. e ≡ rename.Fault error };

    fn from(error: Error) -> Self {
        RenameError::Fault(error)
    }
}

impl From<AllocError> for RenameError {
    ghost from_gives = { λ _ e. e ≡ rename.Fault (error_at parse.OutOfMemory 0 0) };

    fn from(error: AllocError) -> Self {
        RenameError::Fault(Error::from(error))
    }
}
