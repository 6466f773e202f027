//! What was expected where a text does not have the syntax of a module.

ghost use Rattle.std.specs.Prelude.{◌≡◌};
ghost use Rattle.wgsl_error.specs.View.{fault_view};

use crate::source::split_mark;
use std::alloc::Global;
use wgsl_error::{Error, ErrorKind};
use wgsl_parser::parse_within;
use wgsl_report::expecting;

/// How deep a text is parsed at most to find what was expected.
const RULES: usize = 2_000;

/// Returns an error of a source with what was expected there, as `parse_str` reports it, if that
/// has its error at the same place, and else with nothing that was expected: `check_syntax` knows
/// only the last token that it tried.
pub fn with_expected(alloc: Global, source: &str, error: Error) -> Error
    ensures { fault_view result ≡ fault_view error }
{
    let expected = expected_at(alloc, source, &error).unwrap_or(Vec::new(alloc));
    expecting(error, expected)
}

/// What was expected where an error of a source is, if that is known.
fn expected_at(alloc: Global, source: &str, error: &Error) -> Option<Vec<String>> {
    let (mark, text) = split_mark(source);
    let Err(parsed) = parse_within(alloc, text, RULES) else {
        return None;
    };
    if mark.len().saturating_add(parsed.span.start) == error.span.start {
        expected_by(parsed.error)
    } else {
        None
    }
}

/// What was expected instead of a token or of the end.
fn expected_by(kind: ErrorKind) -> Option<Vec<String>> {
    match kind {
        ErrorKind::UnexpectedToken { expected, .. } => Some(expected),
        ErrorKind::UnexpectedEof { expected } => Some(expected),
        _other => None,
    }
}
