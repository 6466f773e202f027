//! Faults: what is wrong with a text, where, and what was expected there.

use crate::facts::Facts;
use crate::snippets::snippet_of;
use crate::streams::LONG;
use std::alloc::{AllocError, Global};
use wgsl_error::{Error, ErrorKind};
use wgsl_span::Span;

/// Sees what is wrong with a text, and its snippet unless the text is long.
pub fn see_fault(error: Error, text: &str, facts: &mut Facts<'_>) -> Result<(), AllocError> {
    let alloc = facts.alloc;
    see_expected(&error, facts)?;
    let Span { start, end } = error.span;
    let told = format!(in alloc; "{}", error.without_expected())?;
    let place = format!(in alloc; "chars {start}..{end}: ")?;
    let message = told.strip_prefix(place.as_str()).unwrap_or(told.as_str());
    let words = format!(in alloc; "fault {start}..{end}")?;
    facts.answer(&words, &message)?;
    facts.tell("expected", &joined(alloc, expected_of(&error))?)?;
    if text.len() > LONG {
        return Ok(());
    }
    let snippet = snippet_of(error, text, facts)?;
    facts.tell("snippet", &snippet)
}

/// What was expected ends the message, is never the rejected token, and is not empty if a token or
/// the end was unexpected.
fn see_expected(error: &Error, facts: &mut Facts<'_>) -> Result<(), AllocError> {
    let (alloc, expected) = (facts.alloc, expected_of(error));
    let is_due = matches!(
        error.error,
        ErrorKind::UnexpectedToken { .. } | ErrorKind::UnexpectedEof { .. }
    );
    facts.expect(
        is_due != expected.is_empty(),
        "what is expected is reported",
    )?;
    let told = format!(in alloc; "{}", error.without_expected())?;
    let mut whole = String::from_str(alloc, &told)?;
    if is_due {
        write!(whole, ", expected `{}`", joined(alloc, expected)?)?;
    }
    let is_at_end = error.to_string(alloc)? == whole;
    facts.expect(is_at_end, "what was expected is at the end of the message")?;
    for text in expected {
        let rejected = format!(in alloc; "unexpected token `{text}`")?;
        facts.expect(
            !told.ends_with(rejected.as_str()),
            "the rejected token is not expected",
        )?;
    }
    Ok(())
}

/// What is told to have been expected.
fn expected_of(error: &Error) -> &[String] {
    match &error.error {
        ErrorKind::UnexpectedToken { expected, .. } => expected,
        ErrorKind::UnexpectedEof { expected } => expected,
        _ => &[],
    }
}

/// The texts with commas between.
fn joined(alloc: Global, texts: &[String]) -> Result<String, AllocError> {
    let mut list = String::new(alloc);
    for text in texts {
        if !list.is_empty() {
            list.push_str(", ")?;
        }
        list.push_str(text)?;
    }
    Ok(list)
}
