//! Faults: their kinds as numbers, and their texts one after another.

ghost use Rattle.std.specs.Prelude.{◌≡◌, ◌⊎◌, ◌++◌, IfOk, OnOk, map, flat_map, string_bytes};
ghost use Rattle.wgsl_error.specs.View.{kind_number, expected_texts};
ghost use Rattle.wgsl_error.specs.declared.ErrorKind.TheVariants as kinds;
ghost use Rattle.wgsl_buffers.specs.Answers.{counted, nul_terminated, of_kind, fault_texts, TellsError, TellsTexts};
ghost use Rattle.wgsl_buffers.specs.Deep.{TellsDeeper};

use crate::answer::{Answer, REFUSED, give, refuse_memory};
use crate::deep::tell_deeper;
use std::alloc::{AllocError, Global};
use wgsl_error::{Error, ErrorKind};

/// The number of the kind of bytes that are not a packed form.
const NOT_A_FORM: usize = 10;

/// The number of a kind.
fn number_of(kind: &ErrorKind) -> usize
    ensures { result ≡ kind_number kind.now }
{
    match kind {
        ErrorKind::InvalidToken => 1,
        ErrorKind::ReservedWord(_) => 2,
        ErrorKind::UnexpectedToken { .. } => 3,
        ErrorKind::UnexpectedEof { .. } => 4,
        ErrorKind::ExtraToken(_) => 5,
        ErrorKind::DiagnosticSeverity => 6,
        ErrorKind::Attribute(_, _) => 7,
        ErrorKind::VarTemplate(_) => 8,
        ErrorKind::OutOfMemory => 9,
    }
}

/// The texts of what was expected.
fn expected_of(kind: &ErrorKind) -> &[String]
    ensures { map string_bytes result.now ≡ expected_texts kind.now }
{
    match kind {
        ErrorKind::UnexpectedToken { expected, .. } => expected,
        ErrorKind::UnexpectedEof { expected } => expected,
        _ => &[],
    }
}

/// Adds texts, with a byte 0 after each.
fn push_texts(texts: &mut String, more: &[String]) -> Result<(), AllocError>
    ensures { let added = flat_map nul_terminated (map string_bytes more.now) in
        OnOk result (string_bytes texts.new ≡ string_bytes texts.old ++ added) }
{
    'texts: for text in more {
        texts.push_str(text.as_str())?;
        texts.push_str("\0")?;
    }
    Ok(())
}

/// The message, then each text that was expected, with a byte 0 after each.
fn texts_of(alloc: Global, kind: &ErrorKind) -> Result<String, AllocError>
    ensures { IfOk result (λ texts. string_bytes texts ≡ fault_texts kind.now) }
{
    let mut texts = format!(in alloc; "{kind}\0")?;
    push_texts(&mut texts, expected_of(kind))?;
    Ok(texts)
}

/// Reports an error with these texts, and returns the status.
pub fn tell_texts(error: &Error, texts: &str, buffer: &mut [u8], answer: &mut Answer) -> u32
    ensures status { result ≡ 1 }
    ensures told { TellsTexts texts.now error.now buffer.old buffer.new answer.new }
{
    *answer = Answer {
        size: texts.len(),
        start: error.span.start,
        end: error.span.end,
        kind: number_of(&error.error),
        expected: expected_of(&error.error).len(),
    };
    give(texts.as_bytes(), buffer);
    REFUSED
}

/// Reports an error of a source that may nest a number of levels deep, with its message and what was
/// expected, and returns the status. An allocation fails where the source nests deeper, too.
pub fn tell_error(
    alloc: Global,
    source: &str,
    depth: usize,
    error: Error,
    buffer: &mut [u8],
    answer: &mut Answer,
) -> u32
    ensures refused { result ≡ 1 → TellsError error buffer.old buffer.new answer.new }
    ensures named { result ≡ 1 → ¬ (error.error ≡ kinds.OutOfMemory) }
    ensures deeper { result ≡ 7 →
        TellsDeeper depth source.now buffer.old buffer.new answer.new }
    ensures memory { result ≡ 3 → answer.new ≡ counted 0 }
    ensures status { (result ≡ 1) ⊎ ((result ≡ 3) ⊎ (result ≡ 7)) }
{
    if matches!(error.error, ErrorKind::OutOfMemory) {
        return tell_deeper(alloc, source, depth, buffer, answer);
    }
    let Ok(texts) = texts_of(alloc, &error.error) else {
        return refuse_memory(answer);
    };
    tell_texts(&error, texts.as_str(), buffer, answer)
}

/// Reports that bytes are not a packed form, and returns the status.
pub fn refuse_packed(answer: &mut Answer) -> u32
    ensures status { result ≡ 1 }
    ensures kind { answer.new ≡ of_kind 10 }
{
    *answer = Answer {
        size: 0,
        start: 0,
        end: 0,
        kind: NOT_A_FORM,
        expected: 0,
    };
    REFUSED
}
