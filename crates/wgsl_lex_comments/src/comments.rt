//! The comments of a source, which are remembered when they were passed over.

ghost use Rattle.std.specs.Prelude.{◌≡◌, ◌≤◌, ◌<◌, ⊤, ℕ, List, [], ◌++◌, chars, length, IfOk, MatchOption};
ghost use Rattle.wgsl_model.specs.Tokens.Places.{width};
ghost use Rattle.wgsl_model.specs.Tokens.Trivia.{after_trivia, outside};
ghost use Rattle.wgsl_theory_grammar.proofs.Tokens.Cuts.{EndsWith};
ghost use Rattle.wgsl_lex_scanner.specs.Trivia.{BeginsWith};
ghost use Rattle.wgsl_lex_comments.specs.Comments.{BeginsAt, Leaves, IsKnown, IsKnownOf, AreComments, AreLeft};

use crate::trivia::after_piece;
use std::alloc::{AllocError, Global};
use wgsl_lex_scanner::trivia::{Piece, piece_at};

/// A comment, by places in the source.
#[derive(Clone, Copy)]
struct Comment {
    /// Where its first character is.
    start: usize,
    /// Where it ends: after the `*/` that closes it, at the line break, or at the end of the
    /// source.
    end: usize,
}

/// A comment that was passed over.
#[derive(Clone, Copy)]
pub(crate) struct Known {
    comment: Comment,
    /// Where the blank space and the comments after it end.
    following: usize,
}

/// The comments that were passed over.
#[derive(Drop)]
pub struct Comments {
    /// The one furthest left last.
    found: Vec<Known>,
    /// Those that are walked, the one furthest right last, while it isn't known where they end.
    run: Vec<Comment>,
}

impl Comments {
    /// Creates an empty list of comments.
    pub fn new(alloc: Global) -> Comments
        ensures { result.found.items ≡ [] }
    {
        Comments {
            found: Vec::new(alloc),
            run: Vec::new(alloc),
        }
    }

    /// Returns the text after the blank space and the comments at the front of a text that ends the
    /// source.
    pub fn skip_trivia<'s>(&mut self, source: &'s str, text: &'s str) -> Result<&'s str, AllocError>
        requires end { (before : List ℕ) × (chars source.now ≡ before ++ chars text.now) }
        requires known { AreComments (chars source.now) self.old.found.items }
        ensures known { IfOk result (λ _. AreComments (chars source.now) self.new.found.items) }
        ensures rest { IfOk result (λ rest.
            chars rest.now ≡ after_trivia outside (chars text.now)) }
        ensures within { IfOk result (λ rest. length rest.now ≤ length text.now) }
    {
        self.run.clear();
        let following = walk(&self.found, &mut self.run, source, text)?;
        self.keep(following)?;
        Ok(text_at(source, following))
    }

    /// Adds the comments of the run, after which all blank space and comments end at one place.
    fn keep(&mut self, following: usize) -> Result<(), AllocError>
        ensures { (source rest : List ℕ) → BeginsAt source following rest →
            AreComments source self.old.found.items → AreLeft source rest self.old.run.items →
            IfOk result (λ _. AreComments source self.new.found.items) }
    {
        while let Some(comment) = self.run.pop() {
            add(&mut self.found, Known { comment, following })?;
        }
        Ok(())
    }
}

/// Adds a comment, if it starts before all others.
fn add(found: &mut Vec<Known>, known: Known) -> Result<(), AllocError>
    ensures { (source : List ℕ) → AreComments source found.old.items →
        IsKnown source known → IfOk result (λ _. AreComments source found.new.items) }
{
    if let Some(last) = found.last()
        && last.comment.start <= known.comment.start
    {
        return Ok(());
    }
    found.push(known)?;
    Ok(())
}

/// Where the blank space and the comments at the front of a text end. Those before the first known
/// comment are added to the run.
fn walk(
    known: &[Known],
    run: &mut Vec<Comment>,
    source: &str,
    text: &str,
) -> Result<usize, AllocError>
    requires end { EndsWith (chars source.now) (chars text.now) }
    requires known { AreComments (chars source.now) known.now }
    requires empty { run.old.items ≡ [] }
    ensures following { IfOk result (λ following.
        BeginsAt (chars source.now) following (after_trivia outside (chars text.now))) }
    ensures run { IfOk result (λ _.
        AreLeft (chars source.now) (after_trivia outside (chars text.now)) run.new.items) }
{
    let mut rest = text;
    'pieces: while let Some(piece) = piece_at(rest) {
        if let Piece::Blank(after) = piece {
            rest = after;
            continue;
        }
        if let Some(found) = find(known, source, rest) {
            return Ok(found.following);
        }
        rest = over_new(known, run, source, rest, piece)?;
    }
    Ok(place(source, rest))
}

/// The text after a comment that isn't known, which is added to the run.
fn over_new<'s>(
    known: &[Known],
    run: &mut Vec<Comment>,
    source: &'s str,
    text: &str,
    comment: Piece<'s>,
) -> Result<&'s str, AllocError>
    requires end { EndsWith (chars source.now) (chars text.now) }
    requires known { AreComments (chars source.now) known.now }
    requires begins { BeginsWith (chars text.now) comment }
    ensures rest { IfOk result (λ over.
        after_trivia outside (chars over.now) ≡ after_trivia outside (chars text.now)) }
    ensures end { IfOk result (λ over. EndsWith (chars source.now) (chars over.now)) }
    ensures shorter { IfOk result (λ over. width (chars over.now) < width (chars text.now)) }
    ensures run { (rest : List ℕ) → after_trivia outside (chars text.now) ≡ rest →
        AreLeft (chars source.now) rest run.old.items →
        IfOk result (λ _. AreLeft (chars source.now) rest run.new.items) }
{
    let over = after_piece(known, source, comment);
    run.push(Comment {
        start: place(source, text),
        end: place(source, over),
    })?;
    Ok(over)
}

/// Where a text begins that ends the source.
fn place(source: &str, text: &str) -> usize
    requires { EndsWith (chars source.now) (chars text.now) }
    ensures { BeginsAt (chars source.now) result (chars text.now) }
{
    source.len() - text.len()
}

/// The text of the source from a place on.
fn text_at(source: &str, place: usize) -> &str
    requires { (text : List ℕ) × BeginsAt (chars source.now) place text }
    ensures { (text : List ℕ) → BeginsAt (chars source.now) place text → chars result.now ≡ text }
{
    &source[place..]
}

/// The comment that begins a text, if it is known.
fn find(known: &[Known], source: &str, text: &str) -> Option<Known>
    requires end { EndsWith (chars source.now) (chars text.now) }
    requires known { AreComments (chars source.now) known.now }
    ensures { MatchOption result ⊤ (λ found. IsKnownOf (chars source.now) (chars text.now) found) }
{
    let start = place(source, text);
    match known.binary_search_by(|known| start.cmp(&known.comment.start)) {
        Ok(at) => Some(known[at]),
        Err(_) => None,
    }
}

/// The text after the known comment that begins a text.
pub(crate) fn over_known<'s>(known: &[Known], source: &'s str, text: &str) -> Option<&'s str>
    requires end { EndsWith (chars source.now) (chars text.now) }
    requires known { AreComments (chars source.now) known.now }
    ensures leaves { MatchOption result ⊤ (λ over. Leaves (chars text.now) (chars over.now)) }
    ensures end { MatchOption result ⊤ (λ over. EndsWith (chars source.now) (chars over.now)) }
    ensures shorter { MatchOption result ⊤ (λ over. length over.now < length text.now) }
{
    let found = find(known, source, text)?;
    Some(text_at(source, found.comment.end))
}
