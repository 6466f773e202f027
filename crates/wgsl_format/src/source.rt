//! The byte order mark of a source, and the line breaks of its formatted text.

ghost use Rattle.std.specs.Prelude.{◌≡◌, ◌+◌, ◌<◌, ◌≤◌, ◌^◌, ◌++◌, chars, length, string_bytes, IfOk};
ghost use Rattle.wgsl_model.specs.Tokens.TokenList.{width};
ghost use Rattle.wgsl_model_tidy.specs.Formatted as model;
ghost use Rattle.wgsl_model_tidy.specs.Syntax.{fault_after};
ghost use Rattle.wgsl_error.specs.View.{fault_view};
ghost use Rattle.wgsl_error.specs.declared.ErrorKind.TheVariants as kinds;
ghost use Rattle.wgsl_format_layout.specs.Layouts.{newlines_view};

use std::alloc::{AllocError, Global};
use wgsl_error::{Error, ErrorKind};
use wgsl_format_layout::Newlines;
use wgsl_span::Span;

/// Returns the byte order mark of a source, or the empty text, and the text after it.
pub fn split_mark(source: &str) -> (&str, &str)
    ensures mark { chars result.0.now ≡ model.mark_of (chars source.now) }
    ensures text { chars result.1.now ≡ model.unmarked (chars source.now) }
    ensures width { length result.0.now ≡ width (model.mark_of (chars source.now)) }
    ensures whole { length result.0.now + length result.1.now ≡ length source.now }
{
    match source.strip_prefix('\u{feff}') {
        Some(text) => ("\u{feff}", text),
        None => ("", source),
    }
}

/// Returns the text of a source after its byte order mark.
pub fn unmarked(source: &str) -> &str
    ensures { chars result.now ≡ model.unmarked (chars source.now) }
{
    split_mark(source).1
}

/// An error in the text after a number of bytes of a source, with its place in the source. That
/// allocation failed has no place.
pub(crate) fn error_after(bytes: usize, error: Error) -> Error
    requires end { bytes + error.span.end < 2 ^ 64 }
    requires start { error.span.start ≤ error.span.end }
    ensures memory { error.error ≡ kinds.OutOfMemory → result ≡ error }
    ensures fault { ¬ (error.error ≡ kinds.OutOfMemory) →
        fault_view result ≡ fault_after bytes (fault_view error) }
{
    if matches!(error.error, ErrorKind::OutOfMemory) {
        return error;
    }
    Error {
        span: Span {
            start: bytes + error.span.start,
            end: bytes + error.span.end,
        },
        error: error.error,
    }
}

/// Whether the first LF of a text is after CR.
fn begins_crlf(text: &str) -> bool
    ensures { result ≡ model.begins_crlf (chars text.now) }
{
    match text.split_once('\n') {
        Some((line, _)) => line.ends_with('\r'),
        None => false,
    }
}

/// Whether the lines of the formatted text of a source end with CR LF.
pub(crate) fn ends_crlf(newlines: Newlines, source: &str) -> bool
    ensures { result ≡ model.ends_crlf (newlines_view newlines) (chars source.now) }
{
    match newlines {
        Newlines::Auto => begins_crlf(source),
        Newlines::Lf => false,
        Newlines::CrLf => true,
    }
}

/// A mark, and after it a text with CR LF in place of each LF.
fn with_crlf(alloc: Global, mark: &str, text: &str) -> Result<String, AllocError>
    ensures { IfOk result (λ changed. chars (string_bytes changed)
        ≡ chars mark.now ++ model.with_crlf (chars text.now)) }
{
    let mut changed = String::with_capacity(alloc, text.len())?;
    changed.push_str(mark)?;
    let mut rest = text;
    'lines: while let Some((line, after)) = rest.split_once('\n') {
        changed.push_str(line)?;
        changed.push_str("\r\n")?;
        rest = after;
    }
    changed.push_str(rest)?;
    Ok(changed)
}

/// A mark, and after it a text.
fn with_mark(mark: &str, text: String) -> Result<String, AllocError>
    ensures { IfOk result (λ marked. chars (string_bytes marked)
        ≡ chars mark.now ++ chars (string_bytes text)) }
{
    if mark.is_empty() {
        return Ok(text);
    }
    let mut marked = text;
    marked.insert_str(0, mark)?;
    Ok(marked)
}

/// A mark, and after it a text with CR LF in place of each LF, or as it is.
pub(crate) fn with_line_ends(
    alloc: Global,
    mark: &str,
    text: String,
    crlf: bool,
) -> Result<String, AllocError>
    ensures { IfOk result (λ formatted. chars (string_bytes formatted)
        ≡ chars mark.now ++ model.with_line_ends crlf (chars (string_bytes text))) }
{
    if crlf {
        return with_crlf(alloc, mark, &text);
    }
    with_mark(mark, text)
}
