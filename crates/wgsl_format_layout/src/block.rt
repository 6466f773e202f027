//! The text of a block comment, as it is written.

ghost use Rattle.std.specs.Prelude.{◌≡◌, ◌<◌, ◌≤◌, ◌++◌, ⊤, ℕ, List, false, true, chars, codes, length, IfOk, MatchOption};
ghost use Rattle.wgsl_model_tidy.specs.Shown as model;
ghost use Rattle.wgsl_model_tidy.specs.Shown.{without_returns, with_front, block_shown, shown};
ghost use Rattle.wgsl_model_tidy.specs.LaidOut.{indentation};
ghost use Rattle.wgsl_theory_tidy.proofs.Comments.{piece};
ghost use Rattle.wgsl_format_layout.specs.Gaps.{comment_class};
ghost use Rattle.wgsl_format_layout.specs.Layouts.{layout_view};
ghost use Rattle.wgsl_format_layout.specs.Lines.{Adds};
ghost use Rattle.wgsl_format_layout.specs.Blocks.{IsOneLine, IsFirstLine, HasFront};

use crate::comment::{Comment, CommentKind, before};
use crate::gap::Gap;
use crate::text::Text;
use std::alloc::AllocError;
use wgsl_lex_scanner::text::split_first;

/// Whether a character is a space or a tab.
fn is_space(c: char) -> bool
    ensures { result ≡ model.is_space c }
{
    c == ' ' || c == '\t'
}

/// Whether each later line of a text begins with `*`, after spaces and tabs.
fn has_stars(text: &str) -> bool
    ensures { result ≡ model.has_stars false (chars text.now) }
{
    let mut rest = text;
    let mut begins = false;
    'characters: while let Some((c, after)) = split_first(rest) {
        if begins && c != '*' && !is_space(c) {
            return false;
        }
        begins = c == '\n' || (begins && is_space(c));
        rest = after;
    }
    !begins
}

/// The first line of a text, without CR at its end, and the text after it; none if the text has no
/// line break.
fn split_line(text: &str) -> Option<(&str, &str)>
    ensures value { MatchOption result (IsOneLine (chars text.now)) (λ found.
        IsFirstLine (chars text.now) (chars found.0.now) (chars found.1.now)) }
    ensures shorter { MatchOption result ⊤ (λ found. length found.1.now < length text.now) }
{
    let mut end = text;
    let mut rest = text;
    'characters: while let Some((c, after)) = split_first(rest) {
        if c == '\n' {
            return Some((before(text, end), after));
        }
        if c != '\r' {
            end = after;
        }
        rest = after;
    }
    None
}

/// A text without the spaces and tabs at its front.
fn after_spaces(text: &str) -> &str
    ensures value { HasFront (chars text.now) (chars result.now) }
    ensures within { length result.now ≤ length text.now }
{
    let mut rest = text;
    'characters: while let Some((c, after)) = split_first(rest) {
        if !is_space(c) {
            return rest;
        }
        rest = after;
    }
    rest
}

impl Text {
    /// Writes a text without CR before LF.
    fn put_lines(&mut self, text: &str) -> Result<(), AllocError>
        ensures { IfOk result (λ _. Adds self.old (without_returns (chars text.now)) self.new) }
    {
        let mut rest = text;
        'lines: while let Some((line, after)) = split_line(rest) {
            self.put(line)?;
            self.put("\n")?;
            rest = after;
        }
        self.put(rest)
    }

    /// The same, with so much indentation and a space at the front of each later line, in place of
    /// its spaces and tabs.
    fn put_moved_lines(&mut self, text: &str, depth: usize) -> Result<(), AllocError>
        ensures { IfOk result (λ _. Adds self.old
            (with_front (indentation (layout_view self.old.line.layout) depth ++ codes " ") false
            (without_returns (chars text.now))) self.new) }
    {
        let mut rest = text;
        'lines: while let Some((line, after)) = split_line(rest) {
            let empty = false;
            self.put(line)?;
            self.put_gap(Gap::Broken { empty, depth })?;
            self.put(" ")?;
            rest = after_spaces(after);
        }
        self.put(rest)
    }

    /// Writes a block comment that is closed, and begins a line of this depth or does not.
    fn put_block(&mut self, text: &str, begins: bool, depth: usize) -> Result<(), AllocError>
        ensures { IfOk result (λ _. Adds self.old
            (block_shown (indentation (layout_view self.old.line.layout) depth ++ codes " ") begins
            (without_returns (chars text.now))) self.new) }
    {
        if begins && has_stars(text) {
            self.put_moved_lines(text, depth)
        } else {
            self.put_lines(text)
        }
    }

    /// Writes a comment, which begins a line of this depth or does not.
    pub(crate) fn put_comment(
        &mut self,
        comment: Comment,
        begins: bool,
        depth: usize,
    ) -> Result<(), AllocError>
        ensures { IfOk result (λ _. Adds self.old
            (shown (indentation (layout_view self.old.line.layout) depth ++ codes " ") begins
            (piece (comment_class comment.entry.kind) (chars comment.entry.text.now) 0))
            self.new) }
    {
        match comment.kind {
            CommentKind::Line => self.put(comment.text),
            CommentKind::Block => self.put_block(comment.text, begins, depth),
            CommentKind::Open => self.put_lines(comment.text),
        }
    }
}
