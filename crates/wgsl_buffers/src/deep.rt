//! Texts that nest deeper than a number of levels.

ghost use Rattle.std.specs.Prelude.{◌≡◌, ◌⊎◌, chars, string_bytes, IfOk};
ghost use Rattle.wgsl_buffers.specs.Answers.{counted, HoldsOrKeeps};
ghost use Rattle.wgsl_buffers.specs.Deep.{deeper_text, texts_at, NestsWithin, TellsDeeper};

use crate::answer::{Answer, TOO_DEEP, give, refuse_memory};
use std::alloc::{AllocError, Global};
use wgsl_format::{deeper_at, deeper_message};
use wgsl_read_nesting::first_deeper;
use wgsl_span::Span;

/// How many levels deep a text may nest by default: a level takes at most 3,800 bytes of stack, of
/// which a thread of a Rust program has 2 MB, and one of WebAssembly's in a browser less than 1 MB.
pub const DEPTH: usize = 200;

/// How deep `parse_within` may go for a number of levels: a statement or an expression in none of
/// them is one for it.
pub(crate) fn rules_for(depth: usize) -> usize {
    depth.saturating_add(1)
}

/// Fails as an allocation does where a text nests deeper than a number of levels, for calls that
/// read a text without a limit.
pub(crate) fn bound(alloc: Global, source: &str, depth: usize) -> Result<(), AllocError>
    ensures { IfOk result (λ _. NestsWithin depth (chars source.now)) }
{
    match first_deeper(alloc, source, depth) {
        Ok(None) => Ok(()),
        _ => Err(AllocError),
    }
}

/// The message of a text that nests deeper than a number of levels, with a byte 0 after it.
fn text_of_deeper(alloc: Global, depth: usize) -> Result<String, AllocError>
    ensures { IfOk result (λ text. string_bytes text ≡ deeper_text depth) }
{
    let mut text = deeper_message(alloc, depth)?;
    text.push_str("\0")?;
    Ok(text)
}

/// Reports a place where a text nests too deep, with these texts, and returns the status.
pub(crate) fn tell_place(span: Span, texts: &str, buffer: &mut [u8], answer: &mut Answer) -> u32
    ensures status { result ≡ 7 }
    ensures place { answer.new ≡ texts_at texts.now 0 span }
    ensures texts { HoldsOrKeeps texts.now buffer.old buffer.new }
{
    *answer = Answer {
        size: texts.len(),
        start: span.start,
        end: span.end,
        kind: 0,
        expected: 0,
    };
    give(texts.as_bytes(), buffer);
    TOO_DEEP
}

/// Reports where a text first nests deeper than a number of levels, or if it does not, that an
/// allocation failed, and returns the status.
pub(crate) fn tell_deeper(
    alloc: Global,
    source: &str,
    depth: usize,
    buffer: &mut [u8],
    answer: &mut Answer,
) -> u32
    ensures deeper { result ≡ 7 →
        TellsDeeper depth source.now buffer.old buffer.new answer.new }
    ensures memory { result ≡ 3 → answer.new ≡ counted 0 }
    ensures status { (result ≡ 3) ⊎ (result ≡ 7) }
{
    let Ok(Some(span)) = deeper_at(alloc, source, depth) else {
        return refuse_memory(answer);
    };
    let Ok(text) = text_of_deeper(alloc, depth) else {
        return refuse_memory(answer);
    };
    tell_place(span, text.as_str(), buffer, answer)
}
