//! Blank space and comments.

ghost use Rattle.std.specs.Prelude.{◌≡◌, ◌≤◌, ◌<◌, chars, length, option_map, IfSome, MatchOption};
ghost use Rattle.wgsl_model.specs.Tokens.Trivia.{after_trivia, outside};
ghost use Rattle.wgsl_lex_scanner.specs.Trivia.{BeginsWith, BeginsWithNone, piece_rest};
ghost use Rattle.wgsl_lex_scanner.specs.Trivia.{IsInLine, after_line};
ghost use Rattle.wgsl_lex_scanner.specs.Trivia.{IsStep, IsShorterStep, after_block};

use crate::characters::{begins_no_comment, is_blank, is_blank_byte, is_line_break, is_line_byte};
use crate::text::split_first;

/// A blank or the sign of a comment at the front of a text, and the text after it.
#[derive(Clone, Copy)]
pub enum Piece<'s> {
    Blank(&'s str),
    /// The sign of a line comment.
    LineComment(&'s str),
    /// The sign of a block comment.
    BlockComment(&'s str),
}

/// A step through the text of a block comment, and the text after it.
#[derive(Clone, Copy)]
pub enum Step<'s> {
    /// There is none.
    Ends,
    /// Leaves open as many comments as before.
    Goes(&'s str),
    Opens(&'s str),
    Closes(&'s str),
}

/// The text after the blank space and the comments at its front.
pub(crate) fn after_trivia(text: &str) -> &str
    ensures rest { chars result.now ≡ after_trivia outside (chars text.now) }
    ensures within { length result.now ≤ length text.now }
{
    let mut rest = text;
    while let Some(after) = after_piece(rest) {
        rest = after;
    }
    rest
}

/// The text after a blank or a comment at its front.
fn after_piece(text: &str) -> Option<&str>
    ensures step { MatchOption result (after_trivia outside (chars text.now) ≡ chars text.now)
        (λ after. after_trivia outside (chars text.now) ≡ after_trivia outside (chars after.now)) }
    ensures shorter { IfSome result (λ after. length after.now < length text.now) }
{
    match piece_at(text)? {
        Piece::Blank(after) => Some(after),
        Piece::LineComment(body) => Some(after_line(body)),
        Piece::BlockComment(body) => Some(after_block(body).unwrap_or("")),
    }
}

/// Returns the blank or the sign of a comment that a text begins with, if it does.
#[inline(always)]
pub fn piece_at(text: &str) -> Option<Piece<'_>>
    ensures value { MatchOption result (BeginsWithNone (chars text.now)) (λ piece.
        BeginsWith (chars text.now) piece) }
    ensures shorter { IfSome result (λ piece. length (piece_rest piece) < length text.now) }
{
    let first = *text.as_bytes().first()?;
    if is_blank_byte(first) {
        return Some(Piece::Blank(&text[1..]));
    }
    if begins_no_comment(first) {
        return None;
    }
    other_piece(text)
}

/// The same, where the text begins with `/` or past ASCII.
#[inline(always)]
fn other_piece(text: &str) -> Option<Piece<'_>>
    ensures value { MatchOption result (BeginsWithNone (chars text.now)) (λ piece.
        BeginsWith (chars text.now) piece) }
    ensures shorter { IfSome result (λ piece. length (piece_rest piece) < length text.now) }
{
    let (c, after) = split_first(text)?;
    if is_blank(c) {
        return Some(Piece::Blank(after));
    }
    if c != '/' {
        return None;
    }
    match split_first(after) {
        Some(('/', body)) => Some(Piece::LineComment(body)),
        Some(('*', body)) => Some(Piece::BlockComment(body)),
        _ => None,
    }
}

/// Returns the text after a first character that does not end the line.
pub fn after_line_character(text: &str) -> Option<&str>
    ensures value { MatchOption result (after_line (chars text.now) ≡ chars text.now) (λ after.
        IsInLine (chars text.now) (chars after.now)) }
    ensures shorter { IfSome result (λ after. length after.now < length text.now) }
{
    let first = *text.as_bytes().first()?;
    if is_line_byte(first) {
        return Some(&text[1..]);
    }
    let (c, after) = split_first(text)?;
    if is_line_break(c) { None } else { Some(after) }
}

/// Returns the text from the end of the line on.
pub fn after_line(text: &str) -> &str
    ensures rest { chars result.now ≡ after_line (chars text.now) }
    ensures within { length result.now ≤ length text.now }
{
    let mut rest = text;
    while let Some(after) = after_line_character(rest) {
        rest = after;
    }
    rest
}

/// Returns the step at the front of a text in a block comment.
#[inline(always)]
pub fn next_step(text: &str) -> Step<'_>
    ensures value { IsStep (chars text.now) result }
    ensures shorter { IsShorterStep (length text.now) result }
{
    let Some((c, after)) = split_first(text) else {
        return Step::Ends;
    };
    match (c, split_first(after)) {
        ('/', Some(('*', body))) => Step::Opens(body),
        ('*', Some(('/', outer))) => Step::Closes(outer),
        _ => Step::Goes(after),
    }
}

/// Returns the text after the end of a block comment that is open, unless it is not closed.
pub fn after_block(text: &str) -> Option<&str>
    ensures value { option_map (λ rest. chars rest.now) result ≡ after_block 0 (chars text.now) }
    ensures shorter { IfSome result (λ rest. length rest.now < length text.now) }
{
    let mut rest = text;
    let mut depth = 0usize;
    'steps: loop {
        match next_step(rest) {
            Step::Ends => return None,
            Step::Goes(after) => rest = after,
            Step::Opens(body) => {
                depth += 1;
                rest = body;
            }
            Step::Closes(outer) => {
                if depth == 0 {
                    return Some(outer);
                }
                depth -= 1;
                rest = outer;
            }
        }
    }
}
