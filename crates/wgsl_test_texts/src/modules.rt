//! What each call and `wgslfmt` return for a module, or for a text that is not a module.

use crate::facts::Facts;
use crate::faults::see_fault;
use crate::programs::Call;
use crate::streams::writes;
use crate::trees::see_whole;
use std::alloc::{AllocError, Global};
use wgsl_error::{Error, ErrorKind};
use wgsl_format::tidy;
use wgsl_lexer::Lexer;
use wgsl_parser::{TranslationUnitParser, parse_str, parse_within};

/// A byte order mark, which only `tidy` reads.
const MARK: char = '\u{feff}';

/// Sees the module of a text, or what is wrong with the text.
pub fn see_unit(text: &str, facts: &mut Facts<'_>) -> Result<(), AllocError> {
    match parse_str(facts.alloc, text) {
        Ok(unit) => {
            facts.tell("accepted", &"")?;
            let printed = see_whole(unit, text, facts)?;
            see_module(text, &printed, facts)
        }
        Err(error) => {
            see_refused(&error, text, facts)?;
            see_fault(error, text, facts)
        }
    }
}

/// Sees what a text is formatted as, or what is wrong with the text.
pub fn see_tidied(text: &str, facts: &mut Facts<'_>) -> Result<(), AllocError> {
    let alloc = facts.alloc;
    if let Err(error) = parse_str(alloc, text) {
        if is_of_tokens(&error, text) {
            see_refused(&error, text, facts)?;
            return see_fault(error, text, facts);
        }
    }
    match tidy(alloc, text) {
        Ok(formatted) => {
            see_formatted(text, &formatted, facts)?;
            facts.answer("printed", &formatted)
        }
        Err(error) => see_fault(error, text, facts),
    }
}

/// Each call and `wgslfmt` accept a module.
fn see_module(text: &str, printed: &str, facts: &mut Facts<'_>) -> Result<(), AllocError> {
    let alloc = facts.alloc;
    let is_accepted = is_same_in_calls(alloc, text, None)?;
    facts.expect(is_accepted, "each call accepts a module")?;
    let is_printed = writes(alloc, Call::Run, text.as_bytes(), 0, printed, "");
    facts.expect(is_printed, "wgslfmt prints a module as the library does")?;
    match tidy(alloc, text) {
        Ok(formatted) => see_formatted(text, &formatted, facts),
        Err(_) => facts.expect(false, "a module is formatted"),
    }
}

/// Each call and `wgslfmt` reject a text that is not a module with the same fault.
fn see_refused(error: &Error, text: &str, facts: &mut Facts<'_>) -> Result<(), AllocError> {
    let alloc = facts.alloc;
    let is_same = is_same_in_calls(alloc, text, Some(error))?;
    facts.expect(is_same, "each call rejects a text with the same fault")?;
    let line = line_of(alloc, error)?;
    let is_same = writes(alloc, Call::Run, text.as_bytes(), 1, "", &line);
    facts.expect(is_same, "wgslfmt rejects a text with the same fault")?;
    let is_of_tokens = is_of_tokens(error, text);
    match tidy(alloc, text) {
        Ok(formatted) => {
            facts.expect(!is_of_tokens, "`tidy` rejects a text with the same fault")?;
            see_formatted(text, &formatted, facts)
        }
        Err(other) => {
            let is_same = line_of(alloc, &other)? == line;
            facts.expect(
                is_same == is_of_tokens,
                "`tidy` returns the first fault of the tokens",
            )
        }
    }
}

/// Formatting does not change a formatted text, and a module is printed as its source.
fn see_formatted(text: &str, formatted: &str, facts: &mut Facts<'_>) -> Result<(), AllocError> {
    let alloc = facts.alloc;
    let is_kept = match tidy(alloc, formatted) {
        Ok(again) => again.as_str() == formatted,
        Err(_) => false,
    };
    facts.expect(is_kept, "formatting does not change a formatted text")?;
    let Ok(unit) = parse_str(alloc, without_mark(text)) else {
        return Ok(());
    };
    let printed = unit.to_string(alloc)?;
    let is_same = match parse_str(alloc, without_mark(formatted)) {
        Ok(again) => again.to_string(alloc)? == printed,
        Err(_) => false,
    };
    facts.expect(is_same, "a formatted module is printed as its source")
}

/// Whether each call that reads modules returns this fault, or none.
fn is_same_in_calls(alloc: Global, text: &str, fault: Option<&Error>) -> Result<bool, AllocError> {
    let tokens = Lexer::new(alloc, text)?;
    let faults = [
        parse_within(alloc, text, usize::MAX).err(),
        TranslationUnitParser::new().parse(alloc, tokens).err(),
    ];
    Ok(faults.iter().all(|found| found.as_ref() == fault))
}

/// The line with which `wgslfmt` reports a fault.
fn line_of(alloc: Global, error: &Error) -> Result<String, AllocError> {
    format!(in alloc; "{}\n", error.without_expected())
}

/// Whether a fault is that of a token or of the end, which `tidy` finds too unless a mark is first.
fn is_of_tokens(error: &Error, text: &str) -> bool {
    let is_of_tokens = matches!(
        error.error,
        ErrorKind::InvalidToken
            | ErrorKind::UnexpectedToken { .. }
            | ErrorKind::UnexpectedEof { .. }
    );
    is_of_tokens && !text.starts_with(MARK)
}

fn without_mark(text: &str) -> &str {
    text.strip_prefix(MARK).unwrap_or(text)
}
