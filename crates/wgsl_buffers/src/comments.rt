//! Tokens and the comments between them, by their kinds and places.

ghost use Rattle.std.specs.Prelude.{◌≡◌, ◌≤◌, ℕ, List, [], ◌++◌, chars, length};
ghost use Rattle.wgsl_model.specs.Tokens.TokenList.{IsTokenList};
ghost use Rattle.wgsl_lex_scanner.specs.Trivia.{BeginsWith, piece_rest};
ghost use Rattle.wgsl_lexer.specs.TextTokens.{tokens_left, ending_left};
ghost use Rattle.wgsl_buffers.specs.Items.{Stored, kind_and_place};
ghost use Rattle.wgsl_buffers.specs.Comments.{AreComments, AreTokensAndComments, Passes};
ghost use Rattle.wgsl_buffers.specs.Calls.{WritesTokensWithComments};

use crate::answer::{Answer, NOT_UTF8, refuse_memory, text_of};
use crate::tokens::{PlacedKind, put, tell_items};
use std::alloc::Global;
use wgsl_lex_scanner::scan::place;
use wgsl_lex_scanner::trivia::{Piece, after_block, after_line, piece_at};
use wgsl_lex_token::kind::TokenKind;
use wgsl_lexer::TextTokens;

/// The number of a block comment that is not closed: no kind of a token has it.
const OPEN_COMMENT: usize = 84;

/// A blank or a comment that is passed over at the front of a text.
#[derive(Clone, Copy)]
struct Passed<'s> {
    /// The number of a comment's kind, and none for a blank.
    kind: Option<usize>,
    /// The text after it.
    rest: &'s str,
}

/// Passes over the blank or the comment whose sign is at the front of a text.
fn pass(piece: Piece<'_>) -> Passed<'_>
    ensures passed { (text : List ℕ) → BeginsWith text piece.entry → Passes text result }
    ensures within { length result.rest.now ≤ length (piece_rest piece.entry) }
{
    match piece {
        Piece::Blank(rest) => Passed { kind: None, rest },
        Piece::LineComment(body) => Passed {
            kind: Some(TokenKind::LineComment as usize),
            rest: after_line(body),
        },
        Piece::BlockComment(body) => match after_block(body) {
            Some(rest) => Passed {
                kind: Some(TokenKind::BlockComment as usize),
                rest,
            },
            None => Passed {
                kind: Some(OPEN_COMMENT),
                rest: "",
            },
        },
    }
}

/// Writes the comments in the blank space at the front of a text that ends a source of a number of
/// bytes, after the items that are counted, and returns how many items there are with them.
fn put_comments(total: usize, text: &str, buffer: &mut [PlacedKind], count: usize) -> usize
    ensures length { length buffer.new ≡ length buffer.old }
    ensures stored { (comments : List (ℕ × ℕ × ℕ)) × AreComments total (chars text.now) comments
        × ((items : List (ℕ × ℕ × ℕ)) → Stored kind_and_place items buffer.old count →
        Stored kind_and_place (items ++ comments) buffer.new result) }
{
    let mut count = count;
    let mut rest = text;
    'pieces: while let Some(piece) = piece_at(rest) {
        let passed = pass(piece);
        let Some(kind) = passed.kind else {
            rest = passed.rest;
            continue;
        };
        let comment = PlacedKind {
            kind,
            start: place(total, rest),
            end: place(total, passed.rest),
        };
        count = put(comment, buffer, count);
        rest = passed.rest;
    }
    count
}

/// Takes the tokens that are left of a source, writes as many of them and of the comments between
/// them as fit, and returns how many there are.
fn fill(source: &str, left: &mut TextTokens, buffer: &mut [PlacedKind]) -> usize
    requires { IsTokenList (chars source.now) (tokens_left left.old) (ending_left left.old) }
    ensures none { tokens_left left.new ≡ [] }
    ensures ending { ending_left left.new ≡ ending_left left.old }
    ensures length { length buffer.new ≡ length buffer.old }
    ensures stored { (items : List (ℕ × ℕ × ℕ))
        × AreTokensAndComments (chars source.now) 0 (tokens_left left.old) items
        × Stored kind_and_place items buffer.new result }
{
    let total = source.len();
    let mut count = 0;
    let mut at = 0;
    'tokens: while let (Some(kind), Some(span)) = (left.kind(), left.span()) {
        count = put_comments(total, &source[at..], buffer, count);
        let token = PlacedKind {
            kind: kind as usize,
            start: span.start,
            end: span.end,
        };
        count = put(token, buffer, count);
        at = span.end;
        left.skip();
    }
    put_comments(total, &source[at..], buffer, count)
}

/// Writes the tokens of a text and the comments between them, in order: as many as fit, and how many
/// there are. A line comment ends before its line break, and a block comment that is not closed at the
/// end of the text. Where text that is no token ends the tokens, the text is refused, with its
/// place, and the comments before it are the last items.
pub fn write_tokens_with_comments(
    alloc: Global,
    text: &[u8],
    buffer: &mut [PlacedKind],
    answer: &mut Answer,
) -> u32
    ensures { WritesTokensWithComments text.now buffer.new answer.new result }
{
    let Some(source) = text_of(text, answer) else {
        return NOT_UTF8;
    };
    let Ok(mut left) = TextTokens::new(alloc, source) else {
        return refuse_memory(answer);
    };
    let count = fill(source, &mut left, buffer);
    tell_items(&left, count, buffer.len(), answer)
}
