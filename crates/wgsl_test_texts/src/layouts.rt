//! Formatted texts with a width, an indentation and line ends.

use crate::facts::Facts;
use crate::faults::see_fault;
use std::alloc::AllocError;
use wgsl_format::{Indent, Layout, Newlines, tidy_with};

/// Sees what a text is formatted as with a layout, and that this is formatted already.
pub fn see_layout(text: &str, words: &str, facts: &mut Facts<'_>) -> Result<(), AllocError> {
    let Some(layout) = layout_of(words) else {
        return facts.expect(
            false,
            "a layout is a width, an indentation and perhaps line ends",
        );
    };
    match tidy_with(facts.alloc, text, layout) {
        Ok(formatted) => {
            let is_kept = match tidy_with(facts.alloc, &formatted, layout) {
                Ok(again) => again == formatted,
                Err(_) => false,
            };
            facts.expect(is_kept, "a formatted text is formatted already")?;
            facts.answer("printed", &formatted)
        }
        Err(error) => see_fault(error, text, facts),
    }
}

/// The layout of words such as `80 tabs 8` and `100 spaces 4 crlf`.
fn layout_of(words: &str) -> Option<Layout> {
    let (width, indent) = words.split_once(' ')?;
    let (word, count) = indent.split_once(' ')?;
    let (count, newlines) = match count.split_once(' ') {
        None => (count, Newlines::Auto),
        Some((count, "lf")) => (count, Newlines::Lf),
        Some((count, "crlf")) => (count, Newlines::CrLf),
        Some(_) => return None,
    };
    let count = count.parse().ok()?;
    let indent = match word {
        "tabs" => Indent::Tab(count),
        "spaces" => Indent::Spaces(count),
        _ => return None,
    };
    Some(Layout {
        width: width.parse().ok()?,
        indent,
        newlines,
    })
}
