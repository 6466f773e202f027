//! Snippets: errors as they are printed with their source.

use crate::facts::Facts;
use std::alloc::AllocError;
use std::borrow::CowStr;
use wgsl_error::{Error, ErrorKind};
use wgsl_span::Span;

/// Returns the snippet of an error in its text, which is that of its copy too; and sees the error
/// as it is printed for a file of this text.
pub fn snippet_of(error: Error, text: &str, facts: &mut Facts<'_>) -> Result<String, AllocError> {
    facts.tell("named", &error.in_file("a.wgsl", text))?;
    let error = error.with_source(CowStr::Borrowed(text));
    let snippet = error.to_string(facts.alloc)?;
    facts.compare(&error, &error.clone(facts.alloc)?, &snippet)?;
    Ok(snippet)
}

/// Sees the snippet of an invalid token at the places `START..END` of a text.
pub fn see_snippet(text: &str, places: &str, facts: &mut Facts<'_>) -> Result<(), AllocError> {
    let Some(span) = span_of(places) else {
        return facts.expect(false, "a snippet has a span");
    };
    let error = Error {
        error: ErrorKind::InvalidToken,
        span,
    };
    let snippet = snippet_of(error, text, facts)?;
    facts.answer("printed", &snippet)
}

/// The span of a text `START..END`.
fn span_of(text: &str) -> Option<Span> {
    let (start, end) = text.split_once("..")?;
    Some(Span {
        start: start.parse().ok()?,
        end: end.parse().ok()?,
    })
}
