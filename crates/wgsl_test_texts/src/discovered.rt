//! The template lists of a text, as they are found for the whole of it.

use crate::facts::Facts;
use std::alloc::{AllocError, Global};
use wgsl_lexer::{Templates, discover};

/// Sees where the lists of a text are, from the first to the last, and what it took to find them.
pub fn see_lists(text: &str, facts: &mut Facts<'_>) -> Result<(), AllocError> {
    let alloc = facts.alloc;
    let found = discover(alloc, text)?;
    let is_equal = found.clone(alloc)? == found;
    facts.expect(is_equal, "a copy is equal")?;
    facts.tell("attempts", &found.attempts())?;
    facts.tell("reads", &found.reads())?;
    facts.answer("lists", &lines_of(alloc, &found, text.len())?)
}

/// The start and the end of each list, on a line of its own.
fn lines_of(alloc: Global, found: &Templates, length: usize) -> Result<String, AllocError> {
    let mut lines = String::new(alloc);
    for place in 0..length {
        if let Some(end) = found.end_of(place) {
            if !lines.is_empty() {
                lines.push('\n')?;
            }
            write!(lines, "{place}..{end}")?;
        }
    }
    Ok(lines)
}
