//! Why a call gives nothing, and whether that is a failed allocation.

use std::alloc::AllocError;
use std::fmt;
use wgsl_parse::error::{Error, ErrorKind, ParseError};
use wgsl_parse::syntax::ModulePathParseError;

/// The reason why a call gives nothing.
pub trait Refusal: fmt::Debug + Drop {
    /// Returns whether the reason is that an allocation failed.
    fn is_want_of_memory(&self) -> bool;
}

impl Refusal for AllocError {
    fn is_want_of_memory(&self) -> bool {
        true
    }
}

impl Refusal for Error {
    fn is_want_of_memory(&self) -> bool {
        self.error == ErrorKind::OutOfMemory
    }
}

impl Refusal for ParseError {
    fn is_want_of_memory(&self) -> bool {
        *self == ParseError::OutOfMemory
    }
}

/// What a lexer gives in place of a token, with its place.
impl Refusal for (usize, ParseError, usize) {
    fn is_want_of_memory(&self) -> bool {
        self.1.is_want_of_memory()
    }
}

impl Refusal for ModulePathParseError {
    fn is_want_of_memory(&self) -> bool {
        *self == ModulePathParseError::OutOfMemory
    }
}
