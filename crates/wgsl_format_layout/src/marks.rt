//! The tokens of a source, each with what has to be known to write those before it.

ghost use Rattle.std.specs.Prelude.{◌≡◌, ℕ, ◌==◌, chars, length, slice_range, IfOk};
ghost use Rattle.std.specs.Str.{IsUtf8};
ghost use Rattle.std.specs.List.{list_any, list_all};
ghost use Rattle.wgsl_model.specs.Tokens.TokenList.{IsTokenList};
ghost use Rattle.wgsl_model_tidy.specs.Pieces.{between};
ghost use Rattle.wgsl_model_tidy.specs.Layout.{column_after};
ghost use Rattle.wgsl_model_tidy.specs.Open.{LayoutState, start};
ghost use Rattle.wgsl_model_tidy.specs.Ahead.{is_inline, comment_width};
ghost use Rattle.wgsl_theory_tidy.proofs.Comments.{piece};
ghost use Rattle.wgsl_lexer.specs.TextTokens.{tokens_left, ending_left, StartWithKind, BeginAt};
ghost use Rattle.wgsl_format_layout.specs.View.{role_view};
ghost use Rattle.wgsl_format_layout.specs.Lines.{is_printable};
ghost use Rattle.wgsl_format_layout.specs.Gaps.{comment_class};
ghost use Rattle.wgsl_format_layout.specs.Layouts.{layout_view};
ghost use Rattle.wgsl_format_layout.specs.Trivia.{no_trivia, HasPassed, IsTrivia};
ghost use Rattle.wgsl_format_layout.specs.Contexts.{IsContext};
ghost use Rattle.wgsl_format_layout.specs.Closing.{AreBelow};
ghost use Rattle.wgsl_format_layout.specs.Reading.{IsLeft, IsNextAt, IsEnd, HasToken, HasRead};
ghost use Rattle.wgsl_format_layout.specs.SoFar.{SoFar, HasStopped};
ghost use Rattle.wgsl_format_layout.specs.declared.marks.Marks as declared;

use crate::comment::{Comment, CommentKind, comment_at, line_ends_at};
use crate::context::Context;
use crate::joint::{closed_up, is_between_items};
use crate::layout::Layout;
use crate::line::{added, is_printable, printable_width, width_of};
use crate::places::Places;
use crate::role::{Role, precedence_of};
use std::alloc::{AllocError, Global};
use wgsl_lex_scanner::text::split_first;
use wgsl_lex_token::kind::TokenKind;
use wgsl_lexer::TextTokens;
use wgsl_span::Span;

/// The blank space and the comments before a token of a source.
#[derive(Clone, Copy)]
pub struct Trivia {
    /// How many line breaks are directly before the token.
    pub line_ends: usize,
    pub has_comment: bool,
    /// How many columns the comments have in a line, each with a space.
    width: usize,
    /// Whether a line has to end before the token, after a comment.
    pub ends: bool,
    /// Whether a line break of the author's is before the token, or before one of the comments.
    pub below: bool,
}

/// The end of a token.
#[derive(Clone, Copy)]
pub struct Mark {
    /// The column there, if all tokens of the source are in one line.
    pub column: usize,
    /// How many times a line has to end before it.
    pub breaks: usize,
}

/// A token of a source, and what is before it.
#[derive(Clone, Copy)]
pub struct MarkedToken {
    pub role: Role,
    /// What it is to what follows.
    pub last: Role,
    /// How it binds, if it is an operator between operands, or 0.
    pub binds: u8,
    /// Whether an item begins with it, after another.
    pub item: bool,
    pub before: Trivia,
    pub span: Span,
    pub width: usize,
    /// Whether each character of it is a printable one of ASCII.
    pub is_printable: bool,
    pub end: Mark,
    /// Its place, or that of the token that closes what it opens, or the place after the last token
    /// if none does.
    pub close: usize,
}

/// Whether a line ends in a text.
fn has_line_end(text: &str) -> bool
    ensures { result ≡ list_any (λ c. c == 10) (chars text.now) }
{
    let mut rest = text;
    'characters: while let Some((c, after)) = split_first(rest) {
        if c == '\n' {
            return true;
        }
        rest = after;
    }
    false
}

/// Whether its line can go on after a comment.
fn is_inline(comment: Comment) -> bool
    ensures { (n : ℕ) → result
        ≡ is_inline (piece (comment_class comment.entry.kind) (chars comment.entry.text.now) n) }
{
    match comment.kind {
        CommentKind::Block => !has_line_end(comment.text),
        CommentKind::Line | CommentKind::Open => false,
    }
}

/// How many columns a comment has in a line, with a space, or 0 if its line can not go on after it.
fn comment_width(comment: Comment, layout: Layout, inline: bool) -> Result<usize, AllocError>
    requires { (n : ℕ) → inline
        ≡ is_inline (piece (comment_class comment.kind) (chars comment.text.now) n) }
    ensures { IfOk result (λ width. (n : ℕ) → width ≡ comment_width (layout_view layout)
        (piece (comment_class comment.entry.kind) (chars comment.entry.text.now) n)) }
{
    if inline {
        added(width_of(comment.text, layout)?, 1)
    } else {
        Ok(0)
    }
}

impl Trivia {
    fn new() -> Trivia
        ensures { result ≡ no_trivia }
    {
        Trivia {
            line_ends: 0,
            has_comment: false,
            width: 0,
            ends: false,
            below: false,
        }
    }

    /// This and a comment after it.
    fn with_comment(self, comment: Comment, layout: Layout) -> Result<Trivia, AllocError>
        ensures { IfOk result (λ trivia. (n : ℕ) → HasPassed self (layout_view layout)
            (piece (comment_class comment.entry.kind) (chars comment.entry.text.now) n) trivia) }
    {
        let inline = is_inline(comment);
        Ok(Trivia {
            line_ends: 0,
            has_comment: true,
            width: added(self.width, comment_width(comment, layout, inline)?)?,
            ends: self.ends | !inline,
            below: self.below | (self.line_ends > 0),
        })
    }
}

/// What a text of blank space and comments before a token is.
fn trivia_in(text: &str, layout: Layout) -> Result<Trivia, AllocError>
    ensures { IfOk result (λ trivia. IsTrivia (layout_view layout) (chars text.now) trivia) }
{
    let mut rest = text;
    let mut trivia = Trivia::new();
    if text == " " {
        return Ok(trivia);
    }
    'pieces: while let Some((c, after)) = split_first(rest) {
        if let Some(comment) = comment_at(rest) {
            trivia = trivia.with_comment(comment, layout)?;
            rest = comment.rest;
            continue;
        }
        trivia.line_ends += line_ends_at(c, after);
        rest = after;
    }
    trivia.below |= trivia.line_ends > 0;
    Ok(trivia)
}

/// The text before a token, after a byte offset, and its own.
fn cut(source: &str, byte: usize, span: Span) -> (&str, &str)
    requires { IsNextAt source.now byte span }
    ensures before { chars result.0.now ≡ between (chars source.now) byte span.start }
    ensures own { result.1.now ≡ slice_range source.now span.start span.end }
    ensures utf8 { IsUtf8 source.now }
{
    (&source[byte..span.start], &source[span.start..span.end])
}

/// How many columns a token has, and whether each character is a printable one of ASCII.
#[derive(Clone, Copy)]
struct Size {
    width: usize,
    is_printable: bool,
}

/// What is measured of the text of a token.
fn measured(text: &str, layout: Layout) -> Result<Size, AllocError>
    ensures width { IfOk result (λ found.
        found.width ≡ column_after (layout_view layout) 0 (chars text.now)) }
    ensures printable { IfOk result (λ found.
        found.is_printable ≡ list_all is_printable text.now) }
{
    let is_printable = is_printable(text);
    let width = if is_printable {
        printable_width(text)
    } else {
        width_of(text, layout)?
    };
    Ok(Size {
        width,
        is_printable,
    })
}

/// The tokens of a source up to a place where no line goes on, and what is read of it.
#[derive(Drop)]
pub struct Marks<'s> {
    source: &'s str,
    layout: Layout,
    /// The tokens that are left.
    left: TextTokens<'s>,
    context: Context,
    /// The byte offset after the last token.
    byte: usize,
    /// The end of the last token.
    end: Mark,
    pub(crate) tokens: Vec<MarkedToken>,
    /// The places of those that open what is still open.
    places: Places,
}

impl<'s> Marks<'s> {
    pub(crate) fn new(
        alloc: Global,
        source: &'s str,
        left: TextTokens<'s>,
        layout: Layout,
    ) -> Marks<'s>
        requires { IsTokenList (chars source.now) (tokens_left left) (ending_left left) }
        ensures left { IsLeft result }
        ensures tokens { tokens_left result.left ≡ tokens_left left.entry }
        ensures source { result.source.now ≡ source.now }
        ensures layout { result.layout ≡ layout }
        ensures context { IsContext result.context start }
        ensures byte { result.byte ≡ 0 }
        ensures column { result.end.column ≡ 0 }
        ensures breaks { result.end.breaks ≡ 0 }
    {
        Marks {
            source,
            layout,
            left,
            context: Context::new(alloc),
            byte: 0,
            end: Mark {
                column: 0,
                breaks: 0,
            },
            tokens: Vec::new(alloc),
            places: Places::new(alloc),
        }
    }

    /// The end of a token with this role and this width, after blank space and comments.
    fn end_of(&self, before: Trivia, role: Role, width: usize) -> Result<Mark, AllocError>
        ensures { IfOk result (λ end. IsEnd self.now (role_view role) before width end) }
    {
        let space = usize::from(!closed_up(self.context.last, role));
        let more = added(added(space, before.width)?, width)?;
        Ok(Mark {
            column: added(self.end.column, more)?,
            breaks: added(self.end.breaks, usize::from(before.ends))?,
        })
    }

    /// Reads a token, which is the next one.
    fn read_token(&mut self, kind: TokenKind, span: Span) -> Result<Role, AllocError>
        requires left { IsLeft self.old }
        requires below { AreBelow (length self.old.tokens.items) self.old.places }
        requires kind { StartWithKind (tokens_left self.old.left) kind }
        requires span { BeginAt (tokens_left self.old.left) span }
        ensures left { IfOk result (λ _. IsLeft self.new) }
        ensures below { IfOk result (λ _.
            AreBelow (length self.new.tokens.items) self.new.places) }
        ensures token { IfOk result (λ role. HasToken self.old role self.new) }
    {
        let (before, text) = cut(self.source, self.byte, span);
        let before = trivia_in(before, self.layout)?;
        let Size {
            width,
            is_printable,
        } = measured(text, self.layout)?;
        self.left.skip();
        let role = self.context.role_in(kind, self.left.kind());
        let end = self.end_of(before, role, width)?;
        let item = is_between_items(self.context.last, role);
        self.context.take(kind, role)?;
        let place = self.tokens.len();
        self.tokens.push(MarkedToken {
            role,
            last: self.context.last,
            binds: precedence_of(role, kind),
            item,
            before,
            span,
            width,
            is_printable,
            end,
            close: place,
        })?;
        self.end = end;
        self.byte = span.end;
        self.places.pass(&mut self.tokens, place, role)?;
        Ok(role)
    }

    /// Reads tokens up to the next with which a line ends, outside of what they open, or to the end
    /// of the source.
    fn read_tokens(&mut self) -> Result<(), AllocError>
        requires left { IsLeft self.old }
        requires below { AreBelow (length self.old.tokens.items) self.old.places }
        ensures left { IfOk result (λ _. IsLeft self.new) }
        ensures below { IfOk result (λ _.
            AreBelow (length self.new.tokens.items) self.new.places) }
        ensures stopped { IfOk result (λ _. (first : declared.Marks) (before : LayoutState) →
            SoFar first before self.old → HasStopped first before self.new) }
    {
        'tokens: while let (Some(kind), Some(span)) = (self.left.kind(), self.left.span()) {
            let is_outside = self.places.is_empty();
            let role = self.read_token(kind, span)?;
            if is_outside && role.ends_line() {
                return Ok(());
            }
        }
        Ok(())
    }

    /// Reads the tokens of the next line, with all that it opens, in place of those that are kept.
    pub(crate) fn read(&mut self) -> Result<(), AllocError>
        requires left { IsLeft self.old }
        ensures left { IfOk result (λ _. IsLeft self.new) }
        ensures read { IfOk result (λ _. (state : LayoutState) →
            IsContext self.old.context state → HasRead self.old state self.new) }
    {
        self.tokens.clear();
        self.places.clear();
        self.read_tokens()?;
        self.places.leave(&mut self.tokens);
        Ok(())
    }
}
