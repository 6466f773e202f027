//! Texts in which a declaration is renamed.

use crate::facts::Facts;
use crate::faults::see_fault;
use std::alloc::{AllocError, Global};
use wgsl_read_rename::{Refusal, RenameError, rename};
use wgsl_span::Span;

/// Sees the text in which what has its name at a place has another one: the first word of an argument
/// is the place, the rest the new name; or what is in the way.
pub fn see_renamed(text: &str, argument: &str, facts: &mut Facts<'_>) -> Result<(), AllocError> {
    let (place, name) = argument.split_once(' ').unwrap_or((argument, ""));
    let place = place.parse::<usize>().unwrap_or(0);
    let alloc = facts.alloc;
    match rename(alloc, text, place, name) {
        Ok(places) => facts.answer("printed", &written(alloc, text, &places, name)?),
        Err(RenameError::Fault(error)) => see_fault(error, text, facts),
        Err(RenameError::Refused(refusal, Span { start, end })) => {
            let words = format!(in alloc; "refused {} {start}..{end}", word_of(refusal))?;
            facts.answer(&words, &text.get(start..end).unwrap_or(""))
        }
    }
}

/// Returns a text with a name at some places, which are in order.
fn written(alloc: Global, text: &str, places: &[Span], name: &str) -> Result<String, AllocError> {
    let mut written = String::new(alloc);
    let mut end = 0;
    for place in places {
        written.push_str(text.get(end..place.start).unwrap_or("?"))?;
        written.push_str(name)?;
        end = place.end;
    }
    written.push_str(text.get(end..).unwrap_or("?"))?;
    Ok(written)
}

/// Returns the word of what is in the way.
fn word_of(refusal: Refusal) -> &'static str {
    match refusal {
        Refusal::NoName => "no_name",
        Refusal::Member => "member",
        Refusal::Outside => "outside",
        Refusal::NoIdentifier => "no_identifier",
        Refusal::Keyword => "keyword",
        Refusal::Reserved => "reserved",
        Refusal::Captured => "captured",
    }
}
