//! An error in a file, with what was expected.

ghost use Rattle.std.specs.Prelude.{◌≡◌, map, string_bytes, IfOk};
ghost use Rattle.std.specs.Str.{chars};
ghost use Rattle.wgsl_error.specs.View.{expected_texts, fault_view, kind_number, kind_texts};
ghost use Rattle.wgsl_report.specs.Faults as plain;
ghost use Rattle.wgsl_span.specs.View.{span_view};

use crate::expected::expected_words;
use crate::message::message_in_file;
use std::alloc::{AllocError, Global};
use wgsl_error::{Error, ErrorKind};

/// Returns what is reported of an error in the file with this name and this source: its place and
/// its message with up to four of the classes and tokens that were expected, as `message_in_file`
/// has it.
pub fn error_in_file(
    alloc: Global,
    name: &str,
    error: &Error,
    source: &str,
) -> Result<String, AllocError>
    ensures { IfOk result (λ text. string_bytes text ≡ plain.reported_fault name.now
        (kind_number error.now.error) (kind_texts error.now.error)
        (expected_texts error.now.error) (chars source.now) (span_view error.now.span)) }
{
    let message = message_of(alloc, &error.error)?;
    message_in_file(alloc, name, &message, source, error.span)
}

/// The message of a kind of error.
fn message_of(alloc: Global, kind: &ErrorKind) -> Result<String, AllocError>
    ensures { IfOk result (λ text. string_bytes text ≡ plain.fault_message
        (kind_number kind.now) (kind_texts kind.now) (expected_texts kind.now)) }
{
    match kind {
        ErrorKind::UnexpectedToken { token, expected } => {
            let token = token_words(alloc, token.as_str())?;
            let expected = expected_words(alloc, expected.as_slice())?;
            format!(in alloc; "unexpected {token}{expected}")
        }
        ErrorKind::UnexpectedEof { expected } => {
            let expected = expected_words(alloc, expected.as_slice())?;
            format!(in alloc; "unexpected end of file{expected}")
        }
        _ => kind.to_string(alloc),
    }
}

/// A token in words: a name has backquotes already.
fn token_words(alloc: Global, token: &str) -> Result<String, AllocError>
    ensures { IfOk result (λ text. string_bytes text ≡ plain.token_words token.now) }
{
    if token.as_bytes().ends_with(b"`") {
        return String::from_str(alloc, token);
    }
    format!(in alloc; "token `{token}`")
}

/// Returns an error with these as what was expected, if it is of a kind that has that.
pub fn expecting(error: Error, expected: Vec<String>) -> Error
    ensures { fault_view result ≡ fault_view error }
{
    Error {
        span: error.span,
        error: kind_expecting(error.error, expected),
    }
}

/// A kind of error with these as what was expected, if it has that.
fn kind_expecting(kind: ErrorKind, expected: Vec<String>) -> ErrorKind
    ensures number { kind_number result ≡ kind_number kind }
    ensures texts { kind_texts result ≡ kind_texts kind }
{
    match kind {
        ErrorKind::UnexpectedToken { token, .. } => ErrorKind::UnexpectedToken { token, expected },
        ErrorKind::UnexpectedEof { .. } => ErrorKind::UnexpectedEof { expected },
        kind => kind,
    }
}
