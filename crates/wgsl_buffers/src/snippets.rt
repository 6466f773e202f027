//! Modules checked, with the line in which a fault starts.

ghost use Rattle.std.specs.Prelude.{◌≡◌, ◌⊎◌, chars, IfOk, string_bytes};
ghost use Rattle.std.specs.Cow.{cow_str_bytes};
ghost use Rattle.wgsl_error.specs.declared.ErrorKind.TheVariants as kinds;
ghost use Rattle.wgsl_error.specs.Places.{message_in_file};
ghost use Rattle.wgsl_error.specs.Printing.{print_message};
ghost use Rattle.wgsl_model.specs.Faults.Snippets.{snippet};
ghost use Rattle.wgsl_span.specs.View.{span_view};
ghost use Rattle.wgsl_buffers.specs.Answers.{counted, nul_terminated, error_lines, TellsTexts};
ghost use Rattle.wgsl_buffers.specs.Calls.{WritesSnippet};
ghost use Rattle.wgsl_buffers.specs.Deep.{deeper_lines, message_lines, TellsDeeperLines};

use crate::answer::{Answer, BAD_NAME, NOT_UTF8, refuse_memory, tell_number, text_of};
use crate::deep::tell_place;
use crate::fault::tell_texts;
use crate::modules::checked;
use std::alloc::{AllocError, Global};
use std::borrow::CowStr;
use wgsl_error::{Error, ErrorKind, ErrorWithSource, MessageInFile};
use wgsl_format::{deeper_at, deeper_message};
use wgsl_span::Span;

/// How the lines of an error begin that is an invalid token.
const INVALID: &str = "error: invalid token";

/// Returns the lines that show an error in a file with a name and a source, with a byte 0 after them.
fn lines_in_file(
    alloc: Global,
    name: &str,
    source: &str,
    error: &Error,
) -> Result<String, AllocError>
    ensures { let message = print_message error.now.error in IfOk result (λ lines.
        string_bytes lines ≡ nul_terminated
        (message_in_file name.now message (chars source.now) (span_view error.now.span))) }
{
    let error = error.in_file(name, source);
    format!(in alloc; "{error}\0")
}

/// Returns the lines that show an error in its source, in a file with a name if that is not empty,
/// with a byte 0 after them.
fn lines_of(alloc: Global, name: &str, error: &ErrorWithSource) -> Result<String, AllocError>
    ensures { let source = chars (cow_str_bytes error.now.source) in IfOk result (λ lines.
        string_bytes lines ≡ nul_terminated (error_lines name.now source error.now.error)) }
{
    if name.is_empty() {
        return format!(in alloc; "{error}\0");
    }
    lines_in_file(alloc, name, error.source.as_str(), &error.error)
}

/// Returns the lines that show a message at a span of a source, with a byte 0 after them.
fn lines_in_text(
    alloc: Global,
    source: &str,
    message: &str,
    span: Span,
) -> Result<String, AllocError>
    ensures { IfOk result (λ lines. string_bytes lines ≡ nul_terminated
        (snippet message.now (chars source.now) (span_view span))) }
{
    // What follows the message of an error is that of each message at its span.
    let invalid = Error {
        error: ErrorKind::InvalidToken,
        span,
    };
    let lines = invalid
        .with_source(CowStr::Borrowed(source))
        .to_string(alloc)?;
    let place = &lines[INVALID.len()..];
    format!(in alloc; "error: {message}{place}\0")
}

/// Returns the lines that show a message at a span of a source, in a file with a name if that is not
/// empty, with a byte 0 after them.
fn lines_of_message(
    alloc: Global,
    name: &str,
    source: &str,
    message: &str,
    span: Span,
) -> Result<String, AllocError>
    ensures { IfOk result (λ lines. string_bytes lines ≡ nul_terminated
        (message_lines name.now message.now (chars source.now) (span_view span))) }
{
    if !name.is_empty() {
        let shown = MessageInFile {
            message,
            span,
            name,
            source,
        };
        return format!(in alloc; "{shown}\0");
    }
    lines_in_text(alloc, source, message, span)
}

/// Returns the lines that show that a text nests deeper than a number of levels at a span, in a file
/// with a name if that is not empty, with a byte 0 after them.
fn lines_of_deeper(
    alloc: Global,
    name: &str,
    source: &str,
    depth: usize,
    span: Span,
) -> Result<String, AllocError>
    ensures { IfOk result (λ lines.
        string_bytes lines ≡ deeper_lines name.now depth source.now span) }
{
    let message = deeper_message(alloc, depth)?;
    lines_of_message(alloc, name, source, message.as_str(), span)
}

/// Reports where a text of a file with a name first nests deeper than a number of levels, with the
/// lines that show it, or if it does not, that an allocation failed, and returns the status.
fn tell_deeper_lines(
    alloc: Global,
    name: &str,
    source: &str,
    depth: usize,
    buffer: &mut [u8],
    answer: &mut Answer,
) -> u32
    ensures deeper { result ≡ 7 →
        TellsDeeperLines name.now depth source.now buffer.old buffer.new answer.new }
    ensures memory { result ≡ 3 → answer.new ≡ counted 0 }
    ensures status { (result ≡ 3) ⊎ (result ≡ 7) }
{
    let Ok(Some(span)) = deeper_at(alloc, source, depth) else {
        return refuse_memory(answer);
    };
    let Ok(lines) = lines_of_deeper(alloc, name, source, depth, span) else {
        return refuse_memory(answer);
    };
    tell_place(span, lines.as_str(), buffer, answer)
}

/// Reports an error of a source that may nest a number of levels deep, with the lines that show it,
/// and returns the status. An allocation fails where the source nests deeper, too.
fn tell_lines(
    alloc: Global,
    name: &str,
    source: &str,
    depth: usize,
    error: Error,
    buffer: &mut [u8],
    answer: &mut Answer,
) -> u32
    ensures refused { result ≡ 1 → TellsTexts (nul_terminated (error_lines name.now
        (chars source.now) error)) error buffer.old buffer.new answer.new }
    ensures named { result ≡ 1 → ¬ (error.error ≡ kinds.OutOfMemory) }
    ensures deeper { result ≡ 7 →
        TellsDeeperLines name.now depth source.now buffer.old buffer.new answer.new }
    ensures memory { result ≡ 3 → answer.new ≡ counted 0 }
    ensures status { (result ≡ 1) ⊎ ((result ≡ 3) ⊎ (result ≡ 7)) }
{
    if matches!(error.error, ErrorKind::OutOfMemory) {
        return tell_deeper_lines(alloc, name, source, depth, buffer, answer);
    }
    let shown = error.with_source(CowStr::Borrowed(source));
    let Ok(lines) = lines_of(alloc, name, &shown) else {
        return refuse_memory(answer);
    };
    tell_texts(&shown.error, lines.as_str(), buffer, answer)
}

/// Checks whether a text is a module, and if it is not, writes its fault with the line in which it
/// starts and carets below it, and a byte 0 after them: the message with its line and column, or if
/// the name of the file is not empty, as compilers print it, without what was expected.
pub fn write_snippet(
    alloc: Global,
    depth: usize,
    name: &[u8],
    text: &[u8],
    buffer: &mut [u8],
    answer: &mut Answer,
) -> u32
    ensures { WritesSnippet depth name.now text.now buffer.old buffer.new answer.new result }
{
    let Some(source) = text_of(text, answer) else {
        return NOT_UTF8;
    };
    let Ok(name) = std::str::from_utf8(name) else {
        return BAD_NAME;
    };
    match checked(alloc, source, depth) {
        Ok(()) => tell_number(0, answer),
        Err(error) => tell_lines(alloc, name, source, depth, error, buffer, answer),
    }
}
