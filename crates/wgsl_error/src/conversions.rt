//! How other errors become these.

ghost use Rattle.std.specs.Prelude.{◌≡◌};
ghost use Rattle.wgsl_error.specs.Kinds.{error_kind_of, error_at};
ghost use Rattle.wgsl_error.specs.declared.ErrorKind.TheVariants as error;
ghost use Rattle.wgsl_error.specs.declared.ParseError.TheVariants as parse;

use crate::{Error, ErrorKind, ParseError};
use std::alloc::{AllocError, AllocFailed};
use wgsl_span::Span;

impl From<ParseError> for ErrorKind {
    ghost from_gives = { λ e kind. kind ≡ error_kind_of e };

    fn from(error: ParseError) -> Self {
        match error {
            ParseError::LexerError => ErrorKind::InvalidToken,
            ParseError::ReservedWord(word) => ErrorKind::ReservedWord(word),
            ParseError::DiagnosticSeverity => ErrorKind::DiagnosticSeverity,
            ParseError::Attribute(name, problem) => ErrorKind::Attribute(name, problem),
            ParseError::VarTemplate(problem) => ErrorKind::VarTemplate(problem),
            ParseError::OutOfMemory => ErrorKind::OutOfMemory,
        }
    }
}

/// A fault from a place up to another.
impl From<(usize, ParseError, usize)> for Error {
    ghost from_gives = { λ fault e. e ≡ error_at fault.1 fault.0 fault.2 };

    fn from((start, error, end): (usize, ParseError, usize)) -> Self {
        Error {
            error: ErrorKind::from(error),
            span: Span { start, end },
        }
    }
}

impl From<AllocError> for ParseError {
    ghost from_gives = { λ _ e. e ≡ parse.OutOfMemory };

    fn from(_error: AllocError) -> Self {
        ParseError::OutOfMemory
    }
}

impl<T: Drop> From<AllocFailed<T>> for ParseError {
    ghost from_gives = { λ _ e. e ≡ parse.OutOfMemory };

    fn from(_error: AllocFailed<T>) -> Self {
        ParseError::from(AllocError)
    }
}

impl From<AllocError> for ErrorKind {
    ghost from_gives = { λ _ kind. kind ≡ error.OutOfMemory };

    fn from(error: AllocError) -> Self {
        ErrorKind::from(ParseError::from(error))
    }
}

impl<T: Drop> From<AllocFailed<T>> for ErrorKind {
    ghost from_gives = { λ _ kind. kind ≡ error.OutOfMemory };

    fn from(_error: AllocFailed<T>) -> Self {
        ErrorKind::from(AllocError)
    }
}

/// A refusal of memory is nowhere in the text: its span is 0..0.
impl From<AllocError> for Error {
    ghost from_gives = { λ _ e. e ≡ error_at parse.OutOfMemory 0 0 };

    fn from(error: AllocError) -> Self {
        Error::from((0, ParseError::from(error), 0))
    }
}

/// The same of a refusal that gives back what was to be stored.
impl<T: Drop> From<AllocFailed<T>> for Error {
    ghost from_gives = { λ _ e. e ≡ error_at parse.OutOfMemory 0 0 };

    fn from(_error: AllocFailed<T>) -> Self {
        Error::from(AllocError)
    }
}
