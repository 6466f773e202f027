//! Where lines begin, and how brackets are written.

ghost use Rattle.std.specs.Prelude.{◌≡◌, ◌+◌, ◌-◌, ◌<◌, ◌≤◌, ◌++◌, ◌&&◌, ◌||◌, not, if◌then◌else◌, ℕ, suc, Bool, true, false, [], ◌∷◌, List, codes, chars, string_bytes, drop, length, IfOk, IsCharBoundary};
ghost use Rattle.std.specs.List.{list_all, position_or_len};
ghost use Rattle.wgsl_model.specs.Tokens.TokenList.{IsTokenList};
ghost use Rattle.wgsl_model.specs.Tokens.Trivia.{outside};
ghost use Rattle.wgsl_model_tidy.specs.Pieces as plain_piece;
ghost use Rattle.wgsl_model_tidy.specs.Roles.{is, assign, closes, opens, opens_bracket, precedences};
ghost use Rattle.wgsl_model_tidy.specs.Joints as joints;
ghost use Rattle.wgsl_model_tidy.specs.Layout as chosen;
ghost use Rattle.wgsl_model_tidy.specs.Open as plain;
ghost use Rattle.wgsl_model_tidy.specs.Ahead as ahead;
ghost use Rattle.wgsl_model_tidy.specs.Ahead.{Ahead};
ghost use Rattle.wgsl_model_tidy.specs.LaidOut as model;
ghost use Rattle.wgsl_theory_tidy.proofs.Comments.{piece};
ghost use Rattle.wgsl_lexer.specs.TextTokens.{tokens_left, ending_left};
ghost use Rattle.wgsl_format_layout.specs.View.{role_view, joint_view};
ghost use Rattle.wgsl_format_layout.specs.Kinds.{style_view};
ghost use Rattle.wgsl_format_layout.specs.States.{state_view};
ghost use Rattle.wgsl_format_layout.specs.Gaps.{comment_class, gap_view, last_view};
ghost use Rattle.wgsl_format_layout.specs.Comments.{MayFollow};
ghost use Rattle.wgsl_format_layout.specs.Layouts.{layout_view};
ghost use Rattle.wgsl_format_layout.specs.Lines.{is_printable};
ghost use Rattle.wgsl_format_layout.specs.Walks.{AreMatched, Follow, IsChain};
ghost use Rattle.wgsl_format_layout.specs.Outputs.{layout_of, IsAt, IsBefore, WritesComment, WritesComments, WritesToken};
ghost use Rattle.wgsl_format_layout.specs.Spots.{spot_of, is_known, IsPast, breaks, state_past, IsNext, WritesNext, WritesAll};
ghost use Rattle.wgsl_format_layout.specs.declared.marks.Mark.{Mark};
ghost use Rattle.wgsl_format_layout.specs.declared.marks.MarkedToken.{MarkedToken};
ghost use Rattle.wgsl_format_layout.specs.declared.marks.Marks.{Marks};

use crate::ahead::{
    Chain, after, chain_end, ends_with_comma, has_operator, has_several, is_table, keeps_rows,
    line_end, part_end,
};
use crate::gap::{Last, is_token};
use crate::joint::{Joint, is_between_items, joint_of};
use crate::line::added;
use crate::marks::MarkedToken;
use crate::opened::{Style, deeper};
use crate::output::Output;
use crate::role::Role;
use std::alloc::AllocError;

/// How many precedences operators between operands have.
const PRECEDENCES: usize = 7;

/// Whether a bracket is filled that a token at a place opens, and that is in lines of its own or
/// not.
fn is_filled(tokens: &[MarkedToken], place: usize, is_broken: bool) -> bool
    requires closed { AreMatched tokens.now }
    requires place { place < length tokens.now }
    ensures { (before : Mark) (n : ℕ) (t : Ahead) (ts : List Ahead) →
        Follow before place tokens.now n (t ∷ ts) → opens t.role ≡ true →
        result ≡ (is_broken && ahead.is_table (suc n) ts) }
{
    is_broken && is_table(tokens, place)
}

impl Output {
    /// Whether what comes after the last token is in its line and fits, from a place on up to
    /// another.
    fn fits(&self, tokens: &[MarkedToken], from: usize, end: usize) -> bool
        requires { end ≤ length tokens.now }
        ensures { (ends : Ahead → Bool) (n : ℕ) (ts : List Ahead) →
            Follow self.now.end from tokens.now n ts → end ≡ from + position_or_len ends ts →
            result ≡ ahead.fits (layout_of self.now) ends self.now.text.line.column ts }
    {
        let line = self.text.line;
        let to = line_end(tokens, self.end, from, end);
        self.end.fits(line.layout, line.column, to)
    }

    /// Whether a line begins with the item at a place, in a bracket that is filled: it does not
    /// fit.
    fn begins_filled(&self, tokens: &[MarkedToken], place: usize) -> bool
        requires closed { AreMatched tokens.now }
        requires place { place < length tokens.now }
        ensures { (n : ℕ) (ts : List Ahead) → Follow self.now.end place tokens.now n ts →
            result ≡ model.begins_filled (layout_of self.now) (spot_of self.now ts) n }
    {
        if !self.state.opened.enclosing().is_filled() {
            return false;
        }
        !self.fits(tokens, place, chain_end(tokens, place))
    }

    /// Whether something is assigned with the next token, outside of brackets.
    fn is_assigned(&self) -> bool
        ensures { result ≡ (is (role_view self.now.state.last) assign
            && not (plain.in_brackets self.now.state.opened)) }
    {
        self.state.last.is(Role::Assign) && !self.state.opened.in_brackets()
    }

    /// Whether a line begins with the operand at a place that is assigned, since it does not fit.
    fn begins_assigned(&self, tokens: &[MarkedToken], place: usize) -> bool
        requires closed { AreMatched tokens.now }
        requires place { place < length tokens.now }
        ensures { (n : ℕ) (ts : List Ahead) → Follow self.now.end place tokens.now n ts →
            result ≡ model.begins_assigned (layout_of self.now) (spot_of self.now ts) n }
    {
        if !self.is_assigned() {
            return false;
        }
        if has_operator(tokens, place) {
            return false;
        }
        !self.fits(tokens, place, part_end(tokens, 0, place))
    }

    /// Whether a line begins with the token at a place where its bracket does not ask for it:
    /// because what follows does not fit, or with an operator or `{` by the operands that go on.
    fn begins_line(&self, tokens: &[MarkedToken], place: usize) -> bool
        requires closed { AreMatched tokens.now }
        requires place { place < length tokens.now }
        ensures { (n : ℕ) (t : Ahead) (ts : List Ahead) →
            Follow self.now.end place tokens.now n (t ∷ ts) → result
            ≡ model.begins_line (layout_of self.now) (spot_of self.now (t ∷ ts)) t.role }
    {
        let token = tokens[place];
        if is_between_items(self.state.last, token.role) {
            return self.begins_filled(tokens, place);
        }
        if self.state.operands.begins_line(token.role, token.binds) {
            return true;
        }
        self.begins_assigned(tokens, place)
    }

    /// Whether a line may begin with the next token where its bracket does not ask for it.
    fn may_begin_line(&self) -> bool
        ensures { result ≡ (model.is_token (last_view self.now.last)
            && model.may_break (plain.enclosing self.now.state.opened)) }
    {
        is_token(self.last) && self.state.opened.enclosing().may_break()
    }

    /// What is between the last token and one at a place.
    pub(crate) fn joint_before(&self, tokens: &[MarkedToken], place: usize) -> Joint
        requires closed { AreMatched tokens.now }
        requires place { place < length tokens.now }
        ensures { (n : ℕ) (t : Ahead) (ts : List Ahead) →
            Follow self.now.end place tokens.now n (t ∷ ts) → joint_view result
            ≡ model.between (layout_of self.now) (spot_of self.now (t ∷ ts)) t.role }
    {
        let enclosing = self.state.opened.enclosing();
        if self.may_begin_line() && self.begins_line(tokens, place) {
            return Joint::Line;
        }
        joint_of(enclosing, self.state.last, tokens[place].role)
    }

    /// Whether operands that the last token begins are in its line up to the bracket at their end,
    /// which is opened since the last of them does not fit in a line of this depth.
    fn opens_last(
        &self,
        tokens: &[MarkedToken],
        chain: Chain,
        depth: usize,
    ) -> Result<bool, AllocError>
        requires operator { chain.operator < length tokens.now }
        requires last { chain.last < length tokens.now }
        requires end { chain.end ≤ length tokens.now }
        ensures { IfOk result (λ opens. (n k limit first : ℕ) (ts : List Ahead) →
            Follow self.now.end (suc first) tokens.now k ts → IsChain n limit first ts chain →
            0 < chain.weakest → opens ≡ model.opens_last (layout_of self.now)
            n limit chain.weakest depth self.now.text.line.column ts) }
    {
        let line = self.text.line;
        let inner = line.layout.line_column(depth)?;
        Ok(chain.opens_last(tokens, line.layout, self.end, line.column, inner))
    }

    /// Whether operands of which a token at a place is the first, and which are these, are in its
    /// line, or up to the bracket at their end, so that no line begins in them; else lines are so
    /// many levels deeper.
    fn are_together(
        &self,
        tokens: &[MarkedToken],
        place: usize,
        chain: Chain,
        depth: usize,
    ) -> Result<bool, AllocError>
        requires operator { chain.operator < length tokens.now }
        requires last { chain.last < length tokens.now }
        requires end { chain.end ≤ length tokens.now }
        requires place { place < length tokens.now }
        ensures { IfOk result (λ together. (n k limit : ℕ) (ts : List Ahead) →
            Follow self.now.end (suc place) tokens.now k ts → IsChain n limit place ts chain →
            0 < chain.weakest → together ≡ (ahead.fits (layout_of self.now)
            (ahead.ends_chain n limit) self.now.text.line.column ts
            || model.opens_last (layout_of self.now)
            n limit chain.weakest depth self.now.text.line.column ts)) }
    {
        if self.fits(tokens, place + 1, chain.end) {
            return Ok(true);
        }
        self.opens_last(tokens, chain, depth)
    }

    /// Begins the operands of which a token at a place is the first, in a line of this depth: if
    /// they do not fit in it, lines begin before the operators that bind weakest, and so in the
    /// first of them.
    fn part_operands(
        &mut self,
        tokens: &[MarkedToken],
        place: usize,
        depth: usize,
    ) -> Result<(), AllocError>
        requires closed { AreMatched tokens.now }
        requires place { place < length tokens.now }
        ensures text { IfOk result (λ _. self.new.text ≡ self.old.text) }
        ensures last { IfOk result (λ _. self.new.last ≡ self.old.last) }
        ensures end { IfOk result (λ _. self.new.end ≡ self.old.end) }
        ensures parted { IfOk result (λ _. (n : ℕ) (t : Ahead) (ts : List Ahead) →
            IsPast self.old.end place tokens.now n t ts → closes t.role ≡ false →
            state_view self.new.state ≡ record (state_view self.old.state) {
              operands = model.parted_operands (layout_of self.old) n
                  (plain.inner_depth self.old.state.opened)
                  (suc depth - plain.inner_depth self.old.state.opened)
                  self.old.text.line.column ts precedences self.old.state.operands;
            }) }
    {
        let inner = self.state.opened.inner_depth()?;
        let mut more = deeper(depth)?.saturating_sub(inner);
        'operands: for _parted in 0..PRECEDENCES {
            let chain = Chain::new(tokens, self.state.operands.parted_at(), place);
            if chain.weakest == 0 {
                return Ok(());
            }
            if self.are_together(tokens, place, chain, added(more, inner)?)? {
                return Ok(());
            }
            self.state.operands.part(chain.weakest, more)?;
            more = deeper(more)?;
        }
        Ok(())
    }

    /// Whether a bracket is in lines of its own that a token at a place opens: a comma is after
    /// its last item, or it does not fit in the line with what follows.
    fn is_broken(&self, tokens: &[MarkedToken], place: usize) -> bool
        requires closed { AreMatched tokens.now }
        requires place { place < length tokens.now }
        ensures { (n : ℕ) (t : Ahead) (ts : List Ahead) →
            IsPast self.now.end place tokens.now n t ts → opens_bracket t.role ≡ true →
            result ≡ breaks (layout_of self.now) n (plain.parted_at self.now.state.operands)
            self.now.text.line.column ts }
    {
        if ends_with_comma(tokens, place) {
            return true;
        }
        let limit = self.state.operands.parted_at();
        has_several(tokens, place)
            && !self.fits(
                tokens,
                place + 1,
                part_end(tokens, limit, after(tokens, place)),
            )
    }

    /// How a bracket is written that a token at a place opens, in a line of this depth.
    fn style_of(
        &self,
        tokens: &[MarkedToken],
        place: usize,
        depth: usize,
    ) -> Result<Style, AllocError>
        requires closed { AreMatched tokens.now }
        requires place { place < length tokens.now }
        ensures { IfOk result (λ style. (n : ℕ) (t : Ahead) (ts : List Ahead) →
            IsPast self.now.end place tokens.now n t ts → opens_bracket t.role ≡ true →
            style_view style ≡ model.style_of (layout_of self.now) n
            (plain.parted_at self.now.state.operands) depth self.now.text.line.column ts) }
    {
        let layout = self.text.line.layout;
        let is_broken = self.is_broken(tokens, place);
        if is_filled(tokens, place, is_broken) {
            return Ok(Style::Filled);
        }
        let column = layout.line_column(deeper(depth)?)?;
        if keeps_rows(tokens, layout, column, place) {
            return Ok(Style::AsWritten);
        }
        Ok(if is_broken {
            Style::ItemByItem
        } else {
            Style::Together
        })
    }

    /// How a bracket is written if a token at a place opens one, which has this role, in a line of
    /// this depth.
    fn style_with(
        &self,
        tokens: &[MarkedToken],
        place: usize,
        right: Role,
        depth: usize,
    ) -> Result<Style, AllocError>
        requires closed { AreMatched tokens.now }
        requires place { place < length tokens.now }
        ensures { IfOk result (λ style. (n : ℕ) (t : Ahead) (ts : List Ahead) →
            IsPast self.now.end place tokens.now n t ts → role_view right ≡ t.role →
            style_view style
            ≡ model.style_with (layout_of self.now) self.now.state.operands
            depth self.now.text.line.column t.role (t ∷ ts)) }
    {
        if right.opens_bracket() {
            return self.style_of(tokens, place, depth);
        }
        Ok(Style::Together)
    }

    /// Begins the operands that begin with a token at a place, if any do, which has this role, in
    /// a line of this depth.
    fn begin_operands(
        &mut self,
        tokens: &[MarkedToken],
        place: usize,
        right: Role,
        depth: usize,
    ) -> Result<(), AllocError>
        requires closed { AreMatched tokens.now }
        requires place { place < length tokens.now }
        ensures text { IfOk result (λ _. self.new.text ≡ self.old.text) }
        ensures last { IfOk result (λ _. self.new.last ≡ self.old.last) }
        ensures end { IfOk result (λ _. self.new.end ≡ self.old.end) }
        ensures begun { IfOk result (λ _. (n : ℕ) (t : Ahead) (ts : List Ahead) →
            IsPast self.old.end place tokens.now n t ts → role_view right ≡ t.role →
            state_view self.new.state ≡ record (state_view self.old.state) {
              operands = model.operands_with (layout_of self.old) (state_view self.old.state)
                  depth self.old.text.line.column t.role (t ∷ ts);
            }) }
    {
        if self.state.may_begin_operands(right) {
            return self.part_operands(tokens, place, depth);
        }
        Ok(())
    }

    /// Goes after a token at a place, which is written.
    pub(crate) fn take(&mut self, tokens: &[MarkedToken], place: usize) -> Result<(), AllocError>
        requires closed { AreMatched tokens.now }
        requires place { place < length tokens.now }
        ensures text { IfOk result (λ _. self.new.text ≡ self.old.text) }
        ensures last { IfOk result (λ _. last_view self.new.last ≡ model.token) }
        ensures end { IfOk result (λ _. (m : MarkedToken) (ms : List MarkedToken) →
            drop place tokens.now ≡ m ∷ ms → self.new.end ≡ m.end) }
        ensures state { IfOk result (λ _. (before : Mark) (n : ℕ) (t : Ahead) (ts : List Ahead)
            (m : MarkedToken) (ms : List MarkedToken) → drop place tokens.now ≡ m ∷ ms →
            Follow before place tokens.now n (t ∷ ts) → list_all is_known ts ≡ true →
            state_view self.new.state
            ≡ state_past (layout_of self.old) (state_view self.old.state)
            self.old.text.line.column t ts (role_view m.last)) }
    {
        let token = tokens[place];
        let depth = self.state.line;
        self.last = Last::Token;
        self.end = token.end;
        self.begin_operands(tokens, place, token.role, depth)?;
        let style = self.style_with(tokens, place, token.role, depth)?;
        self.state.take(token.role, token.binds, token.last, style)
    }
}
