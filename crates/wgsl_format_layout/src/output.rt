//! The formatted text of a source.

ghost use Rattle.std.specs.Prelude.{◌≡◌, ◌+◌, ◌-◌, ◌<◌, ◌≤◌, ◌++◌, ◌&&◌, ◌||◌, not, if◌then◌else◌, ℕ, suc, Bool, true, false, [], ◌∷◌, List, codes, chars, string_bytes, drop, length, IfOk, IsCharBoundary};
ghost use Rattle.std.specs.List.{list_all, position_or_len};
ghost use Rattle.wgsl_model.specs.Tokens.TokenList.{IsTokenList};
ghost use Rattle.wgsl_model.specs.Tokens.Trivia.{outside};
ghost use Rattle.wgsl_model_tidy.specs.Pieces as plain_piece;
ghost use Rattle.wgsl_model_tidy.specs.Roles.{is, assign, closes, opens, opens_bracket, precedences};
ghost use Rattle.wgsl_model_tidy.specs.Joints as joints;
ghost use Rattle.wgsl_model_tidy.specs.Layout as chosen;
ghost use Rattle.wgsl_model_tidy.specs.Open as plain;
ghost use Rattle.wgsl_model_tidy.specs.Ahead as ahead;
ghost use Rattle.wgsl_model_tidy.specs.Ahead.{Ahead};
ghost use Rattle.wgsl_model_tidy.specs.LaidOut as model;
ghost use Rattle.wgsl_theory_tidy.proofs.Comments.{piece};
ghost use Rattle.wgsl_lexer.specs.TextTokens.{tokens_left, ending_left};
ghost use Rattle.wgsl_format_layout.specs.View.{role_view, joint_view};
ghost use Rattle.wgsl_format_layout.specs.Kinds.{style_view};
ghost use Rattle.wgsl_format_layout.specs.States.{state_view};
ghost use Rattle.wgsl_format_layout.specs.Gaps.{comment_class, gap_view, last_view};
ghost use Rattle.wgsl_format_layout.specs.Comments.{MayFollow};
ghost use Rattle.wgsl_format_layout.specs.Layouts.{layout_view};
ghost use Rattle.wgsl_format_layout.specs.Lines.{is_printable};
ghost use Rattle.wgsl_format_layout.specs.Walks.{AreMatched, Follow, IsChain};
ghost use Rattle.wgsl_format_layout.specs.Outputs.{layout_of, IsAt, IsBefore, WritesComment, WritesComments, WritesToken};
ghost use Rattle.wgsl_format_layout.specs.Spots.{spot_of, is_known, IsPast, breaks, state_past, IsNext, WritesNext, WritesAll};
ghost use Rattle.wgsl_format_layout.specs.declared.marks.Mark.{Mark};
ghost use Rattle.wgsl_format_layout.specs.declared.marks.MarkedToken.{MarkedToken};
ghost use Rattle.wgsl_format_layout.specs.declared.marks.Marks.{Marks};

use crate::comment::{Comment, CommentKind, comment_at, is_followed, line_ends_at};
use crate::gap::{
    Gap, Last, comment_gap, comment_last, depth_after, is_at_front, is_line, is_token, line_break,
    token_gap,
};
use crate::joint::{Joint, joint_of};
use crate::layout::Layout;
use crate::marks::{Mark, MarkedToken, Marks};
use crate::role::Role;
use crate::state::LayoutState;
use crate::text::Text;
use std::alloc::{AllocError, Global};
use wgsl_lex_scanner::text::split_first;
use wgsl_lexer::TextTokens;

/// A text that is formatted up to a place.
#[derive(Drop)]
pub struct Output {
    pub(crate) text: Text,
    pub(crate) state: LayoutState,
    /// What the last piece is.
    pub(crate) last: Last,
    /// The end of the last token.
    pub(crate) end: Mark,
}

/// Whether a line break is after the last piece.
fn ends_line(last: Last, left: Role) -> bool
    ensures { (if result then codes "\n" else []) ≡ model.ending (last_view last) (role_view left) }
{
    match last {
        Last::Token => !left.is(Role::Beginning),
        Last::Comment(CommentKind::Open) => false,
        Last::Leading | Last::Comment(CommentKind::Line | CommentKind::Block) => true,
    }
}

impl Output {
    fn new(alloc: Global, source: &str, layout: Layout) -> Result<Output, AllocError>
        ensures layout { IfOk result (λ output. output.text.line.layout ≡ layout) }
        ensures nothing { IfOk result (λ output. chars (string_bytes output.text.string) ≡ []) }
        ensures is_at { IfOk result (λ output. (chosen : chosen.Layout)
            (ps : List plain_piece.Piece) → IsAt output (model.first_spot chosen ps)) }
        ensures column { IfOk result (λ output. output.end.column ≡ 0) }
        ensures breaks { IfOk result (λ output. output.end.breaks ≡ 0) }
    {
        Ok(Output {
            text: Text::with_capacity(alloc, source.len(), layout)?,
            state: LayoutState::new(alloc),
            last: Last::Token,
            end: Mark {
                column: 0,
                breaks: 0,
            },
        })
    }

    /// How many line breaks of the author's count here: none in a bracket in one line.
    fn breaks_before(&self, line_ends: usize) -> usize
        ensures { result ≡ (if model.may_break (plain.enclosing self.now.state.opened)
            then line_ends else 0) }
    {
        if self.state.opened.enclosing().may_break() {
            line_ends
        } else {
            0
        }
    }

    /// The gap before a comment after a number of line breaks that count, before a token that has
    /// this role and owns it or does not.
    fn gap_before_comment(
        &self,
        kind: CommentKind,
        line_ends: usize,
        right: Role,
        owned: bool,
    ) -> Result<Gap, AllocError>
        ensures { IfOk result (λ gap. (spot : model.Spot) (n : ℕ) →
            IsBefore self.now spot (role_view right) → line_ends ≡ model.counted spot n →
            gap_view gap ≡ model.gap_before_comment
            spot (role_view right) (comment_class kind) owned n) }
    {
        let left = self.state.last;
        let depth = self.state.comment_depth(right)?;
        let items = self.state.between_items(right);
        let broken = line_break(items, self.last, left, Role::Beginning, line_ends, depth);
        Ok(comment_gap(kind, self.last, left, owned, line_ends, broken))
    }

    /// The gap before a token that has this role, after a number of line breaks that count.
    fn gap_before_token(
        &self,
        joint: Joint,
        line_ends: usize,
        right: Role,
    ) -> Result<Gap, AllocError>
        ensures { IfOk result (λ gap. (layout : chosen.Layout) (spot : model.Spot) (n : ℕ) →
            IsBefore self.now spot (role_view right) → line_ends ≡ model.counted spot n →
            model.between layout spot (role_view right) ≡ joint_view joint →
            gap_view gap ≡ model.gap_before_token layout spot (role_view right) n) }
    {
        let left = self.state.last;
        if let (Last::Token, Joint::Nothing) = (self.last, joint) {
            return Ok(Gap::Closed);
        }
        if let (Last::Token, Joint::Space, false) = (self.last, joint, left.is(Role::Beginning)) {
            return Ok(Gap::Blank);
        }
        let depth = self.state.depth_of(right)?;
        let items = self.state.between_items(right);
        let broken = line_break(items, self.last, left, right, line_ends, depth);
        Ok(token_gap(joint, self.last, left, right, line_ends, broken))
    }

    /// Writes a comment after a number of line breaks, before a token that has this role and owns
    /// it or does not.
    fn write_comment(
        &mut self,
        comment: Comment,
        line_ends: usize,
        right: Role,
        owned: bool,
    ) -> Result<(), AllocError>
        ensures { IfOk result (λ _. WritesComment self.old (piece (comment_class
            comment.entry.kind) (chars comment.entry.text.now) line_ends) (role_view right) owned
            self.new) }
    {
        let line_ends = self.breaks_before(line_ends);
        let gap = self.gap_before_comment(comment.kind, line_ends, right, owned)?;
        let depth = depth_after(gap, self.state.line);
        let at_front = is_at_front(gap, self.last, self.state.last);
        self.text.put_gap(gap)?;
        self.text.put_comment(comment, at_front, depth)?;
        self.state.line = depth;
        self.last = comment_last(gap, self.last, self.state.last, comment.kind);
        Ok(())
    }

    /// Whether a comment before a text of blank space and comments belongs to the token after
    /// that, which has this role, with this between it and the last one.
    fn owns(&self, text: &str, joint: Joint, right: Role) -> bool
        ensures { (layout : chosen.Layout) (spot : model.Spot)
            (following : ℕ → List plain_piece.Piece) → IsBefore self.now spot (role_view right) →
            MayFollow following true → (model.is_token spot.last ≡ true → model.is_line
            (model.between layout spot (role_view right)) ≡ model.is_line (joint_view joint)) →
            model.owned layout spot (role_view right)
            (plain_piece.comments following outside 0 (chars text.now)) ≡ result }
    {
        is_token(self.last) && is_line(joint) && !right.closes() && is_followed(text, true)
    }

    /// The same, where a token is after that or none.
    fn is_owned(&self, text: &str, joint: Joint, right: Role, has_next: bool) -> bool
        ensures { (layout : chosen.Layout) (spot : model.Spot)
            (following : ℕ → List plain_piece.Piece) → IsBefore self.now spot (role_view right) →
            MayFollow following has_next → (has_next ≡ false → (m : ℕ) → following m ≡ []) →
            (has_next ≡ true → model.is_token spot.last ≡ true → model.is_line
            (model.between layout spot (role_view right)) ≡ model.is_line (joint_view joint)) →
            model.owned layout spot (role_view right)
            (plain_piece.comments following outside 0 (chars text.now)) ≡ result }
    {
        if !has_next {
            return false;
        }
        self.owns(text, joint, right)
    }

    /// Writes the comments of a text of blank space and comments, before a token of this role,
    /// with this between it and the last one, or at the end of the source. Returns how many line
    /// breaks are after the last comment.
    fn write_comments(
        &mut self,
        text: &str,
        joint: Joint,
        right: Role,
        has_next: bool,
    ) -> Result<usize, AllocError>
        ensures { IfOk result (λ n. WritesComments self.old (chars text.now) (joint_view joint)
            (role_view right) has_next n self.new) }
    {
        let mut rest = text;
        let mut line_ends = 0;
        'pieces: while let Some((c, after)) = split_first(rest) {
            if let Some(comment) = comment_at(rest) {
                let owned = self.is_owned(comment.rest, joint, right, has_next);
                self.write_comment(comment, line_ends, right, owned)?;
                line_ends = 0;
                rest = comment.rest;
                continue;
            }
            line_ends += line_ends_at(c, after);
            rest = after;
        }
        Ok(line_ends)
    }

    /// What is between the last token and one of this role after comments, if any are written;
    /// this is between them if none is.
    fn joint_after(&self, joint: Joint, right: Role) -> Joint
        ensures { joint_view result ≡ (if model.is_token (last_view self.now.last)
            then joint_view joint else joints.joint (plain.enclosing self.now.state.opened)
            (role_view self.now.state.last) (role_view right)) }
    {
        if is_token(self.last) {
            return joint;
        }
        joint_of(self.state.opened.enclosing(), self.state.last, right)
    }

    /// Writes a token with these characters after a number of line breaks, with this between it
    /// and the last one.
    fn write_token(
        &mut self,
        token: MarkedToken,
        text: &str,
        joint: Joint,
        line_ends: usize,
    ) -> Result<(), AllocError>
        requires { token.is_printable ≡ true → list_all is_printable text.now ≡ true }
        ensures { IfOk result (λ _. WritesToken self.old (joint_view joint)
            (role_view token.role) line_ends (chars text.now) self.new) }
    {
        let line_ends = self.breaks_before(line_ends);
        let gap = self.gap_before_token(joint, line_ends, token.role)?;
        self.text.put_gap(gap)?;
        self.text.put_token(text, token.is_printable)?;
        self.state.line = depth_after(gap, self.state.line);
        Ok(())
    }

    /// Writes the comments before a token, which are after a byte offset, with this between it and
    /// the last one. Returns how many line breaks are after the last comment.
    fn write_before(
        &mut self,
        source: &str,
        byte: usize,
        token: MarkedToken,
        joint: Joint,
    ) -> Result<usize, AllocError>
        requires forward { byte ≤ token.span.start }
        requires from { IsCharBoundary source.now byte }
        requires to { IsCharBoundary source.now token.span.start }
        requires none { token.before.has_comment ≡ false →
            (following : ℕ → List plain_piece.Piece) → plain_piece.comments following outside 0
            (plain_piece.between (chars source.now) byte token.span.start)
            ≡ following token.before.line_ends }
        ensures { IfOk result (λ n. WritesComments self.old (plain_piece.between
            (chars source.now) byte token.span.start) (joint_view joint) (role_view token.role)
            true n self.new) }
    {
        if !token.before.has_comment {
            return Ok(token.before.line_ends);
        }
        self.write_comments(&source[byte..token.span.start], joint, token.role, true)
    }

    /// Writes the token at a place and the comments before it, which are after a byte offset.
    fn write_next(
        &mut self,
        tokens: &[MarkedToken],
        source: &str,
        place: usize,
        byte: usize,
    ) -> Result<(), AllocError>
        requires closed { AreMatched tokens.now }
        requires place { place < length tokens.now }
        requires next { (spot : model.Spot) × (marks : Marks) × (after : plain.LayoutState)
            × IsNext source.now tokens.now place byte self.old spot marks after }
        ensures { IfOk result (λ _. WritesNext source.now tokens.now place byte self.old self.new) }
    {
        let token = tokens[place];
        let joint = self.joint_before(tokens, place);
        self.state.operands.go_on(token.role, token.binds);
        let line_ends = self.write_before(source, byte, token, joint)?;
        let joint = self.joint_after(joint, token.role);
        let text = &source[token.span.start..token.span.end];
        self.write_token(token, text, joint, line_ends)?;
        self.take(tokens, place)?;
        Ok(())
    }

    /// Writes tokens and the comments before them, which are after a byte offset, and returns the
    /// byte offset after them.
    fn write_all(
        &mut self,
        tokens: &[MarkedToken],
        source: &str,
        byte: usize,
    ) -> Result<usize, AllocError>
        requires closed { AreMatched tokens.now }
        requires next { (spot : model.Spot) × (marks : Marks) × (after : plain.LayoutState)
            × IsNext source.now tokens.now 0 byte self.old spot marks after }
        ensures { IfOk result (λ to. WritesAll source.now tokens.now byte self.old to self.new) }
    {
        let mut to = byte;
        'tokens: for place in 0..tokens.len() {
            self.write_next(tokens, source, place, to)?;
            to = tokens[place].span.end;
        }
        Ok(to)
    }

    /// Writes what is after the last piece.
    fn end(self) -> Result<String, AllocError>
        ensures { IfOk result (λ text. (layout : chosen.Layout) (spot : model.Spot) →
            IsAt self spot → chars (string_bytes text)
            ≡ chars (string_bytes self.text.string) ++ model.laid_from layout spot []) }
    {
        let mut text = self.text;
        if ends_line(self.last, self.state.last) {
            text.put("\n")?;
        }
        Ok(text.string)
    }
}

/// Returns the formatted text of a source with these tokens.
pub fn laid_out(
    alloc: Global,
    source: &str,
    tokens: TextTokens,
    layout: Layout,
) -> Result<String, AllocError>
    requires { IsTokenList
        (chars source.now) (tokens_left tokens) (ending_left tokens) }
    ensures { IfOk result (λ text. chars (string_bytes text) ≡ model.laid_out
        (layout_view layout) (plain_piece.pieces (chars source.now) (tokens_left tokens.entry))) }
{
    let mut marks = Marks::new(alloc, source, tokens, layout);
    let mut output = Output::new(alloc, source, layout)?;
    let mut byte = 0;
    marks.read()?;
    'statements: while !marks.tokens.is_empty() {
        byte = output.write_all(&marks.tokens, source, byte)?;
        marks.read()?;
    }
    output.write_comments(&source[byte..], Joint::Nothing, Role::Beginning, false)?;
    output.end()
}
