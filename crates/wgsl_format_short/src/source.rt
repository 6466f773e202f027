//! The byte order mark of a source.

ghost use Rattle.std.specs.Prelude.{◌≡◌, ◌+◌, ◌<◌, ◌≤◌, ◌^◌, chars, length};
ghost use Rattle.wgsl_model.specs.Tokens.TokenList.{width};
ghost use Rattle.wgsl_model_tidy.specs.Formatted as model;
ghost use Rattle.wgsl_model_tidy.specs.Syntax.{fault_after};
ghost use Rattle.wgsl_error.specs.View.{fault_view};
ghost use Rattle.wgsl_error.specs.declared.ErrorKind.TheVariants as kinds;

use wgsl_error::{Error, ErrorKind};
use wgsl_span::Span;

/// How many bytes the byte order mark of a source has, or 0, and the text after it.
pub(crate) fn split_mark(source: &str) -> (usize, &str)
    ensures text { chars result.1.now ≡ model.unmarked (chars source.now) }
    ensures width { result.0 ≡ width (model.mark_of (chars source.now)) }
    ensures whole { result.0 + length result.1.now ≡ length source.now }
{
    match source.strip_prefix('\u{feff}') {
        Some(text) => (source.len() - text.len(), text),
        None => (0, source),
    }
}

/// An error in the text after a number of bytes of a source, with its place in the source. That
/// allocation failed has no place.
pub(crate) fn error_after(bytes: usize, error: Error) -> Error
    requires end { bytes + error.span.end < 2 ^ 64 }
    requires start { error.span.start ≤ error.span.end }
    ensures memory { error.error ≡ kinds.OutOfMemory → result ≡ error }
    ensures fault { ¬ (error.error ≡ kinds.OutOfMemory) →
        fault_view result ≡ fault_after bytes (fault_view error) }
{
    if matches!(error.error, ErrorKind::OutOfMemory) {
        return error;
    }
    Error {
        span: Span {
            start: bytes + error.span.start,
            end: bytes + error.span.end,
        },
        error: error.error,
    }
}
