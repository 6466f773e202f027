//! Tokens, by their kinds and places.

ghost use Rattle.std.specs.Prelude.{◌≡◌, ◌≤◌, ◌<◌, ◌⊎◌, ℕ, List, [], ◌∷◌, ◌++◌, length};
ghost use Rattle.grammar.specs.Tokens as grammar;
ghost use Rattle.grammar.specs.Endings.{Ending.finished, Ending.carried};
ghost use Rattle.wgsl_model.specs.Faults.Kinds.{invalid_token};
ghost use Rattle.wgsl_lexer.specs.TextTokens.{tokens_left, ending_left};
ghost use Rattle.wgsl_buffers.specs.Answers.{counted};
ghost use Rattle.wgsl_buffers.specs.Items.{Stored, counted_to, kind_and_place, token_items};
ghost use Rattle.wgsl_buffers.specs.Calls.{WritesTokens};

use crate::answer::{Answer, DONE, NOT_UTF8, REFUSED, TOO_SMALL, refuse_memory, text_of};
use std::alloc::Global;
use wgsl_lexer::TextTokens;

/// A token or a comment: the number of its kind, and where it starts and ends.
#[repr(C)]
#[derive(Clone, Copy, Debug, PartialEq, Eq)]
pub struct PlacedKind {
    pub kind: usize,
    pub start: usize,
    pub end: usize,
}

/// Writes an item after those that are counted if it fits, and returns how many there are with it.
#[tactic(auto, using(crate::proofs::Written::items))]
pub(crate) fn put(item: PlacedKind, buffer: &mut [PlacedKind], count: usize) -> usize
    ensures length { length buffer.new ≡ length buffer.old }
    ensures stored { (items : List (ℕ × ℕ × ℕ)) → Stored kind_and_place items buffer.old count →
        Stored kind_and_place (items ++ (kind_and_place item ∷ [])) buffer.new result }
{
    if count < buffer.len() {
        buffer[count] = item;
    }
    count.saturating_add(1)
}

/// Takes the tokens that are left, writes as many as fit, and returns how many there are.
#[tactic(auto, using(crate::proofs::Written::tokens))]
fn fill(left: &mut TextTokens, buffer: &mut [PlacedKind]) -> usize
    ensures none { tokens_left left.new ≡ [] }
    ensures ending { ending_left left.new ≡ ending_left left.old }
    ensures length { length buffer.new ≡ length buffer.old }
    ensures stored { let items = token_items (tokens_left left.old) in
        Stored kind_and_place items buffer.new result }
{
    let mut count = 0;
    'tokens: while let (Some(kind), Some(span)) = (left.kind(), left.span()) {
        let token = PlacedKind {
            kind: kind as usize,
            start: span.start,
            end: span.end,
        };
        count = put(token, buffer, count);
        left.skip();
    }
    count
}

/// Reports how many items there are of a text whose tokens are taken, and the place of an invalid
/// token that ended them, and returns the status by the size of the buffer.
pub(crate) fn tell_items(left: &TextTokens, count: usize, size: usize, answer: &mut Answer) -> u32
    requires { tokens_left left.now ≡ [] }
    ensures all { result ≡ 0 → (ending_left left.now ≡ finished) × (answer.new ≡ counted count) }
    ensures refused { result ≡ 1 → (span : grammar.Span)
        × (ending_left left.now ≡ carried (invalid_token span))
        × (answer.new ≡ counted_to count span) }
    ensures small { result ≡ 4 → (size < count) × (answer.new ≡ counted count) }
    ensures fits { result ≤ 1 → count ≤ size }
    ensures status { (result ≤ 1) ⊎ (result ≡ 4) }
{
    *answer = Answer::of_size(count);
    if size < count {
        return TOO_SMALL;
    }
    match left.invalid() {
        None => DONE,
        Some(span) => {
            answer.start = span.start;
            answer.end = span.end;
            answer.kind = 1;
            REFUSED
        }
    }
}

/// Writes the tokens of a text: as many as fit, and how many there are. Where text that is no token
/// ends them, the text is refused, with its place.
pub fn write_tokens(
    alloc: Global,
    text: &[u8],
    buffer: &mut [PlacedKind],
    answer: &mut Answer,
) -> u32
    ensures { WritesTokens text.now buffer.new answer.new result }
{
    let Some(source) = text_of(text, answer) else {
        return NOT_UTF8;
    };
    let Ok(mut left) = TextTokens::new(alloc, source) else {
        return refuse_memory(answer);
    };
    let count = fill(&mut left, buffer);
    tell_items(&left, count, buffer.len(), answer)
}
