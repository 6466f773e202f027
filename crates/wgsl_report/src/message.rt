//! A message at a span of a file.

ghost use Rattle.std.specs.Prelude.{◌≡◌, string_bytes, IfOk};
ghost use Rattle.std.specs.Str.{chars};
ghost use Rattle.wgsl_report.specs.Messages.{reported};
ghost use Rattle.wgsl_span.specs.View.{span_view};

use crate::line::shown_line;
use crate::place::place_of;
use std::alloc::{AllocError, Global};
use wgsl_span::Span;

/// Returns a message at a span of the file with this name and this source: `NAME:LINE:COLUMN: error:
/// MESSAGE`, the line in which the span starts, and a line of carets below the span. Lines end at an
/// LF alone; columns are counted in characters, both from 1. Of a line of more than 120 columns up to
/// 60 are shown on each side of the start of the span, with three dots where there are more. Every
/// span is accepted, as by `Error::with_source`.
pub fn message_in_file(
    alloc: Global,
    name: &str,
    message: &str,
    source: &str,
    span: Span,
) -> Result<String, AllocError>
    ensures { IfOk result (λ text. string_bytes text
        ≡ reported name.now message.now (chars source.now) (span_view span)) }
{
    let place = place_of(source, span);
    let shown = shown_line(alloc, place.front, place.back, place.marks)?;
    let (line, column) = (place.line, place.column);
    format!(in alloc; "{name}:{line}:{column}: error: {message}\n{shown}")
}
