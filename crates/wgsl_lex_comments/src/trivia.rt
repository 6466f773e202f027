//! The text after a blank or a comment, which jumps over the comments that are known.

ghost use Rattle.std.specs.Prelude.{◌≡◌, ◌≤◌, ◌<◌, ⊤, ℕ, List, chars, length, MatchOption};
ghost use Rattle.wgsl_model.specs.Tokens.Places.{width};
ghost use Rattle.wgsl_model.specs.Tokens.Trivia.{after_trivia, outside, in_line, in_block, out_of_block};
ghost use Rattle.wgsl_theory_grammar.proofs.Tokens.Cuts.{EndsWith};
ghost use Rattle.wgsl_lex_scanner.specs.Trivia.{BeginsWith, piece_rest};
ghost use Rattle.wgsl_lex_comments.specs.Comments.{Leaves, AreComments};

use crate::comments::{Known, over_known};
use wgsl_lex_scanner::trivia::{Piece, Step, after_line_character, next_step, piece_at};

/// The text after a blank, or after the comment that begins with a sign.
pub(crate) fn after_piece<'s>(known: &[Known], source: &'s str, piece: Piece<'s>) -> &'s str
    requires end { EndsWith (chars source.now) (chars (piece_rest piece)) }
    requires known { AreComments (chars source.now) known.now }
    ensures leaves { (text : List ℕ) → BeginsWith text piece.entry →
        Leaves text (chars result.now) }
    ensures end { EndsWith (chars source.now) (chars result.now) }
    ensures shorter { (text : List ℕ) → BeginsWith text piece.entry →
        width (chars result.now) < width text }
{
    match piece {
        Piece::Blank(after) => after,
        Piece::LineComment(body) => after_line(known, source, body),
        Piece::BlockComment(body) => after_block(known, source, body),
    }
}

/// The text from the end of the line on.
fn after_line<'s>(known: &[Known], source: &'s str, text: &'s str) -> &'s str
    requires end { EndsWith (chars source.now) (chars text.now) }
    requires known { AreComments (chars source.now) known.now }
    ensures rest { after_trivia outside (chars result.now) ≡ after_trivia in_line (chars text.now) }
    ensures end { EndsWith (chars source.now) (chars result.now) }
    ensures within { length result.now ≤ length text.now }
{
    let mut rest = text;
    while let Some(after) = after_line_character(rest) {
        if let Some(over) = over_line(known, source, rest) {
            return over;
        }
        rest = after;
    }
    rest
}

/// The text after the known line comment that begins a text.
fn over_line<'s>(known: &[Known], source: &'s str, text: &str) -> Option<&'s str>
    requires end { EndsWith (chars source.now) (chars text.now) }
    requires known { AreComments (chars source.now) known.now }
    ensures rest { MatchOption result ⊤ (λ over.
        after_trivia outside (chars over.now) ≡ after_trivia in_line (chars text.now)) }
    ensures end { MatchOption result ⊤ (λ over. EndsWith (chars source.now) (chars over.now)) }
    ensures shorter { MatchOption result ⊤ (λ over. length over.now < length text.now) }
{
    match piece_at(text) {
        Some(Piece::LineComment(_)) => over_known(known, source, text),
        _ => None,
    }
}

/// The text after the end of a block comment that is open.
fn after_block<'s>(known: &[Known], source: &'s str, text: &'s str) -> &'s str
    requires end { EndsWith (chars source.now) (chars text.now) }
    requires known { AreComments (chars source.now) known.now }
    ensures rest { (n : ℕ) →
        after_trivia (out_of_block n) (chars result.now)
        ≡ after_trivia (in_block n) (chars text.now) }
    ensures end { EndsWith (chars source.now) (chars result.now) }
    ensures within { length result.now ≤ length text.now }
{
    let mut rest = text;
    let mut depth = 0usize;
    'steps: loop {
        match next_step(rest) {
            Step::Ends => return rest,
            Step::Goes(after) => rest = after,
            Step::Opens(body) => {
                if let Some(over) = over_known(known, source, rest) {
                    rest = over;
                    continue;
                }
                depth += 1;
                rest = body;
            }
            Step::Closes(after) => {
                if depth == 0 {
                    return after;
                }
                depth -= 1;
                rest = after;
            }
        }
    }
}
