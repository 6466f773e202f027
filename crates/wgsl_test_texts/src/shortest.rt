//! Shortest texts.

use crate::facts::Facts;
use crate::faults::see_fault;
use std::alloc::{AllocError, Global};
use wgsl_format_short::shorten;
use wgsl_lexer::TextTokens;

/// What the shortest text of a module is; that this is shortest already and has the same tokens,
/// and that each of its spaces is needed for them.
pub fn see_shortest(text: &str, facts: &mut Facts<'_>) -> Result<(), AllocError> {
    match shorten(facts.alloc, text) {
        Ok(short) => {
            let is_kept = match shorten(facts.alloc, &short) {
                Ok(again) => again == short,
                Err(_) => false,
            };
            facts.expect(is_kept, "a shortest text is shortest already")?;
            let source = text.trim_start_matches('\u{feff}');
            let has_tokens = has_same_tokens(facts.alloc, source, &short)?;
            facts.expect(has_tokens, "a shortest text has the tokens of its source")?;
            let is_needed = is_each_space_needed(facts.alloc, &short)?;
            facts.expect(is_needed, "each space of a shortest text is needed")?;
            facts.answer("printed", &short)
        }
        Err(error) => see_fault(error, text, facts),
    }
}

/// Whether two texts have the same kinds of tokens with the same texts, in order.
fn has_same_tokens(alloc: Global, left: &str, right: &str) -> Result<bool, AllocError> {
    let mut left_tokens = TextTokens::new(alloc, left)?;
    let mut right_tokens = TextTokens::new(alloc, right)?;
    for _ in 0..=left.len() {
        if left_tokens.kind() != right_tokens.kind() {
            return Ok(false);
        }
        let (Some(left_span), Some(right_span)) = (left_tokens.span(), right_tokens.span()) else {
            return Ok(left_tokens.invalid().is_none() && right_tokens.invalid().is_none());
        };
        if left.get(left_span.start..left_span.end) != right.get(right_span.start..right_span.end) {
            return Ok(false);
        }
        left_tokens.skip();
        right_tokens.skip();
    }
    Ok(false)
}

/// Whether the tokens of a text are others without any one of its spaces.
fn is_each_space_needed(alloc: Global, text: &str) -> Result<bool, AllocError> {
    for (place, _) in text.match_indices(' ') {
        let (Some(before), Some(after)) = (text.get(..place), text.get(place.saturating_add(1)..))
        else {
            return Ok(false);
        };
        let without = format!(in alloc; "{before}{after}")?;
        if has_same_tokens(alloc, text, &without)? {
            return Ok(false);
        }
    }
    Ok(true)
}
