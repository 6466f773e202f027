//! Comments at the front of a text.

ghost use Rattle.std.specs.Prelude.{◌≡◌, ◌<◌, ◌≤◌, ⊤, ℕ, List, ◌∷◌, ◌++◌, chars, length, MatchOption};
ghost use Rattle.wgsl_model_tidy.specs.Pieces.{line_ends_at};
ghost use Rattle.wgsl_theory_grammar.proofs.Tokens.Cuts.{EndsWith};
ghost use Rattle.wgsl_format_layout.specs.Comments.{IsComment, IsNone, Follows};

use wgsl_lex_scanner::characters::is_line_break;
use wgsl_lex_scanner::text::split_first;
use wgsl_lex_scanner::trivia::{Piece, after_block, after_line, piece_at};

/// The kind of a comment.
#[derive(Clone, Copy)]
pub enum CommentKind {
    Line,
    Block,
    /// A block comment that is not closed.
    Open,
}

/// A comment as it is, without the white space at the end of its line, and the text after it.
#[derive(Clone, Copy)]
pub struct Comment<'s> {
    pub kind: CommentKind,
    pub text: &'s str,
    pub rest: &'s str,
}

/// How many lines end at a character that is before a text; CR and LF are one line break.
pub(crate) fn line_ends_at(c: char, after: &str) -> usize
    ensures { result ≡ line_ends_at c (chars after.now) }
{
    if c == '\r' && matches!(split_first(after), Some(('\n', _))) {
        return 0;
    }
    usize::from(is_line_break(c))
}

/// What is before the rest of a text.
pub(crate) fn before<'s>(text: &'s str, rest: &str) -> &'s str
    requires { EndsWith (chars text.now) (chars rest.now) }
    ensures { (front : List ℕ) →
        chars text.now ≡ front ++ chars rest.now → chars result.now ≡ front }
{
    &text[..text.len() - rest.len()]
}

/// A line comment, which begins a text, and is before another after its sign.
fn line_comment<'s>(text: &'s str, body: &'s str) -> Comment<'s>
    requires sign { chars text.now ≡ 47 ∷ (47 ∷ chars body.now) }
    ensures comment { IsComment (chars text.now) result }
    ensures within { length result.rest.now ≤ length body.now }
{
    let rest = after_line(body);
    Comment {
        kind: CommentKind::Line,
        text: before(text, rest).trim_end(),
        rest,
    }
}

/// A block comment, which begins a text, and is before another after its sign.
fn block_comment<'s>(text: &'s str, body: &'s str) -> Comment<'s>
    requires sign { chars text.now ≡ 47 ∷ (42 ∷ chars body.now) }
    ensures comment { IsComment (chars text.now) result }
    ensures within { length result.rest.now ≤ length body.now }
{
    let Some(rest) = after_block(body) else {
        return Comment {
            kind: CommentKind::Open,
            text,
            rest: "",
        };
    };
    Comment {
        kind: CommentKind::Block,
        text: before(text, rest),
        rest,
    }
}

/// The comment at the front of a text, if one is there.
pub(crate) fn comment_at(text: &str) -> Option<Comment<'_>>
    ensures value { MatchOption result (IsNone (chars text.now)) (λ comment.
        IsComment (chars text.now) comment) }
    ensures shorter { MatchOption result ⊤ (λ comment. length comment.rest.now < length text.now) }
{
    match piece_at(text)? {
        Piece::Blank(_) => None,
        Piece::LineComment(body) => Some(line_comment(text, body)),
        Piece::BlockComment(body) => Some(block_comment(text, body)),
    }
}

/// Whether a token after a text of blank space and comments follows in the line of what is before
/// the text; at the end of a source none follows.
pub(crate) fn is_followed(text: &str, has_next: bool) -> bool
    ensures { Follows (chars text.now) has_next result }
{
    let mut rest = text;
    'pieces: while let Some((c, after)) = split_first(rest) {
        if let Some(comment) = comment_at(rest) {
            rest = comment.rest;
            continue;
        }
        if line_ends_at(c, after) > 0 {
            return false;
        }
        rest = after;
    }
    has_next
}
