//! Modules that may nest a number of levels deep, and where texts nest deeper.

use crate::facts::Facts;
use crate::faults::see_fault;
use std::alloc::AllocError;
use wgsl_format::{Layout, deeper_in_file, tidy_within};
use wgsl_parser::parse_within;

/// Sees whether a text is a module where it may nest a number of levels deep, or why not.
pub fn see_depth(text: &str, words: &str, facts: &mut Facts<'_>) -> Result<(), AllocError> {
    let Ok(depth) = words.parse::<usize>() else {
        return facts.expect(false, "a depth is a number");
    };
    match parse_within(facts.alloc, text, depth) {
        Ok(_) => facts.answer("accepted", &""),
        Err(error) => see_fault(error, text, facts),
    }
}

/// Sees whether a text is formatted where it may nest a number of levels deep, or why not.
pub fn see_tidy_depth(text: &str, words: &str, facts: &mut Facts<'_>) -> Result<(), AllocError> {
    let Ok(depth) = words.parse::<usize>() else {
        return facts.expect(false, "a depth is a number");
    };
    match tidy_within(facts.alloc, text, Layout::standard(), depth) {
        Ok(_) => facts.answer("accepted", &""),
        Err(error) => see_fault(error, text, facts),
    }
}

/// Sees what is reported of the text of a file that nests deeper than a number of levels.
pub fn see_deeper(text: &str, words: &str, facts: &mut Facts<'_>) -> Result<(), AllocError> {
    let Ok(depth) = words.parse::<usize>() else {
        return facts.expect(false, "a depth is a number");
    };
    match deeper_in_file(facts.alloc, "a.wgsl", text, depth)? {
        Some(message) => facts.answer("named", &message),
        None => facts.answer("accepted", &""),
    }
}
