//! Copies that ask for memory.

ghost use Rattle.std.specs.Prelude.{◌≡◌, IfOk, map, string_bytes};
ghost use Rattle.wgsl_error.specs.Kinds.{error_kind_of};
ghost use Rattle.wgsl_error.specs.View.{kind_number, kind_texts, expected_texts};

use crate::{Error, ErrorKind, ParseError};
use std::alloc::{AllocError, Global};

impl ErrorKind {
    /// Returns a copy, unless allocation fails.
    pub fn clone(&self, alloc: Global) -> Result<Self, AllocError>
        ensures number { IfOk result (λ copy. kind_number copy ≡ kind_number self.now) }
        ensures texts { IfOk result (λ copy. kind_texts copy ≡ kind_texts self.now) }
        ensures expected { IfOk result (λ copy. expected_texts copy ≡ expected_texts self.now) }
    {
        Ok(match self {
            ErrorKind::InvalidToken => ErrorKind::InvalidToken,
            ErrorKind::ReservedWord(word) => ErrorKind::ReservedWord(String::from_str(
                alloc, word,
            )?),
            ErrorKind::UnexpectedToken { token, expected } => ErrorKind::UnexpectedToken {
                token: String::from_str(alloc, token)?,
                expected: clone_texts(expected, alloc)?,
            },
            ErrorKind::UnexpectedEof { expected } => ErrorKind::UnexpectedEof {
                expected: clone_texts(expected, alloc)?,
            },
            ErrorKind::ExtraToken(token) => ErrorKind::ExtraToken(String::from_str(alloc, token)?),
            ErrorKind::DiagnosticSeverity => ErrorKind::DiagnosticSeverity,
            ErrorKind::Attribute(name, problem) => ErrorKind::Attribute(*name, *problem),
            ErrorKind::VarTemplate(problem) => ErrorKind::VarTemplate(*problem),
            ErrorKind::OutOfMemory => ErrorKind::OutOfMemory,
        })
    }
}

impl ParseError {
    /// Returns a copy, unless allocation fails.
    pub fn clone(&self, alloc: Global) -> Result<Self, AllocError>
        ensures number { IfOk result (λ copy.
            kind_number (error_kind_of copy) ≡ kind_number (error_kind_of self.now)) }
        ensures texts { IfOk result (λ copy.
            kind_texts (error_kind_of copy) ≡ kind_texts (error_kind_of self.now)) }
    {
        Ok(match self {
            ParseError::LexerError => ParseError::LexerError,
            ParseError::ReservedWord(word) => ParseError::ReservedWord(String::from_str(
                alloc, word,
            )?),
            ParseError::DiagnosticSeverity => ParseError::DiagnosticSeverity,
            ParseError::Attribute(name, problem) => ParseError::Attribute(*name, *problem),
            ParseError::VarTemplate(problem) => ParseError::VarTemplate(*problem),
            ParseError::OutOfMemory => ParseError::OutOfMemory,
        })
    }
}

impl Error {
    /// Returns a copy, unless allocation fails.
    pub fn clone(&self, alloc: Global) -> Result<Self, AllocError>
        ensures number { IfOk result (λ copy. kind_number copy.error ≡ kind_number self.now.error) }
        ensures texts { IfOk result (λ copy. kind_texts copy.error ≡ kind_texts self.now.error) }
        ensures expected { IfOk result (λ copy.
            expected_texts copy.error ≡ expected_texts self.now.error) }
        ensures span { IfOk result (λ copy. copy.span ≡ self.now.span) }
    {
        Ok(Error {
            error: self.error.clone(alloc)?,
            span: self.span,
        })
    }
}

fn clone_texts(texts: &[String], alloc: Global) -> Result<Vec<String>, AllocError>
    ensures { IfOk result (λ copy. map string_bytes copy.items ≡ map string_bytes texts.now) }
{
    Vec::from_clones(alloc, texts)
}
