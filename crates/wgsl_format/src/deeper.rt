//! What is reported of a text that nests deeper than a number of levels.

ghost use Rattle.std.specs.Prelude.{◌≡◌, chars, string_bytes, IfOk, IfSome};
ghost use Rattle.wgsl_span.specs.View.{span_view};
ghost use Rattle.wgsl_format.specs.Deeper.{deeper_message, IsDeeperInFile, NestsDeeper};

use std::alloc::{AllocError, Global};
use wgsl_read_nesting::first_deeper;
use wgsl_report::message_in_file;
use wgsl_span::Span;

/// Returns where a text first nests deeper than a number of levels, if it does.
pub fn deeper_at(alloc: Global, text: &str, depth: usize) -> Result<Option<Span>, AllocError>
    ensures { IfOk result (λ found. IfSome found (λ span.
        NestsDeeper depth (chars text.now) (span_view span))) }
{
    match first_deeper(alloc, text, depth) {
        Ok(found) => Ok(found),
        Err(_) => Err(AllocError),
    }
}

/// Returns what is reported there.
pub fn deeper_message(alloc: Global, depth: usize) -> Result<String, AllocError>
    ensures { IfOk result (λ message. string_bytes message ≡ deeper_message depth) }
{
    format!(in alloc; "nests deeper than {depth} levels")
}

/// Returns what is reported of a text of the file of this name that nests deeper than a number of
/// levels, if it does.
pub fn deeper_in_file(
    alloc: Global,
    name: &str,
    text: &str,
    depth: usize,
) -> Result<Option<String>, AllocError>
    ensures { IfOk result (λ told. IfSome told (λ message.
        IsDeeperInFile depth name.now (chars text.now) (string_bytes message))) }
{
    let Some(span) = deeper_at(alloc, text, depth)? else {
        return Ok(None);
    };
    let message = deeper_message(alloc, depth)?;
    let told = message_in_file(alloc, name, message.as_str(), text, span)?;
    Ok(Some(told))
}
