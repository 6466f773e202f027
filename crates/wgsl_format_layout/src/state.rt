//! What is known after a token.

ghost use Rattle.std.specs.Prelude.{◌≡◌, ◌&&◌, true, IfOk};
ghost use Rattle.wgsl_model_tidy.specs.Open as plain;
ghost use Rattle.wgsl_model_tidy.specs.Roles.{begins_operand, opens};
ghost use Rattle.wgsl_model_tidy.specs.LaidOut.{may_break};
ghost use Rattle.wgsl_format_layout.specs.View.{role_view};
ghost use Rattle.wgsl_format_layout.specs.States.{state_view, fresh_by, gone, taken};
ghost use Rattle.wgsl_format_layout.specs.Kinds.{style_view};

use crate::line::added;
use crate::opened::{Open, Opened, Style, deeper};
use crate::operands::Operands;
use crate::role::Role;
use std::alloc::{AllocError, Global};

/// What is known after a token.
#[derive(Drop)]
pub(crate) struct LayoutState {
    pub(crate) opened: Opened,
    pub(crate) operands: Operands,
    /// The depth of the line.
    pub(crate) line: usize,
    /// What the last token is to what follows.
    pub(crate) last: Role,
    /// Whether operands may begin with the next token.
    fresh: bool,
    /// Whether the last attribute is one of a statement, a declaration or a member.
    leading: bool,
}

impl LayoutState {
    pub(crate) fn new(alloc: Global) -> LayoutState
        ensures { state_view result ≡ plain.start }
    {
        LayoutState {
            opened: Opened::new(alloc),
            operands: Operands::new(alloc),
            line: 0,
            last: Role::Beginning,
            fresh: true,
            leading: false,
        }
    }

    /// Whether a statement, a declaration, a member or a clause begins here, or goes on after its
    /// attributes.
    fn begins(&self) -> bool
        ensures { result ≡ plain.begins (state_view self.now) }
    {
        if self.last.is(Role::Attribute) {
            return self.leading;
        }
        self.last.begins_item()
    }

    /// Whether the last one has ended before such a token, or a list of them begins or ends.
    pub(crate) fn between_items(&self, right: Role) -> bool
        ensures { result ≡ plain.between_items (state_view self.now) (role_view right) }
    {
        !self.opened.in_brackets()
            && (right.is(Role::BlockEnd)
                || (self.last.begins_item()
                    && !(self.last.is(Role::Attribute) || right.is(Role::ElseWord))))
    }

    /// Whether a line that begins with such a token is as deep as what is in the innermost.
    fn is_at_depth(&self, right: Role) -> bool
        ensures { result ≡ plain.is_at_depth (state_view self.now) (role_view right) }
    {
        self.opened.in_brackets() || self.begins() || right.is(Role::BlockStart)
    }

    fn depth_within(&self, right: Role) -> Result<usize, AllocError>
        ensures { IfOk result (λ depth.
            depth ≡ plain.depth_within (state_view self.now) (role_view right)) }
    {
        let depth = self.opened.inner_depth()?;
        if self.operands.are_parted() {
            return added(self.operands.more(), depth);
        }
        if self.is_at_depth(right) {
            Ok(depth)
        } else {
            deeper(depth)
        }
    }

    /// How deep a line is that begins with such a token.
    pub(crate) fn depth_of(&self, right: Role) -> Result<usize, AllocError>
        ensures { IfOk result (λ depth.
            depth ≡ plain.depth_of (state_view self.now) (role_view right)) }
    {
        if right.closes() {
            Ok(self.opened.outer_depth())
        } else {
            self.depth_within(right)
        }
    }

    /// How deep a line is that begins with a comment before such a token.
    pub(crate) fn comment_depth(&self, right: Role) -> Result<usize, AllocError>
        ensures { IfOk result (λ depth.
            depth ≡ plain.comment_depth (state_view self.now) (role_view right)) }
    {
        if right.closes() {
            self.opened.inner_depth()
        } else {
            self.depth_within(right)
        }
    }

    /// Whether operands may begin with such a token.
    pub(crate) fn may_begin_operands(&self, right: Role) -> bool
        ensures { result ≡ ((self.now.fresh && begins_operand (role_view right))
            && may_break (plain.enclosing self.now.opened)) }
    {
        self.fresh && right.begins_operand() && self.opened.enclosing().may_break()
    }

    /// Whether operands may begin after a token that does this and binds so.
    fn fresh_after(&self, right: Role, binds: u8) -> bool
        ensures { result ≡ fresh_by self.now.operands (role_view right) binds }
    {
        if right.is(Role::Binary) {
            return binds == self.operands.parted_at();
        }
        !right.is_in_operand()
    }

    /// Opens what such a token does; a bracket is of this style.
    fn open(&mut self, right: Role, style: Style) -> Result<(), AllocError>
        ensures { IfOk result (λ _. opens (role_view right) ≡ true → state_view self.new
            ≡ gone (state_view self.old) (role_view right) (style_view style)) }
    {
        self.operands.open()?;
        if right.is(Role::BlockStart) {
            let depth = self.opened.inner_depth()?;
            return self.opened.push(Open::Block, depth);
        }
        self.opened.push(Open::Bracket(style), self.line)
    }

    /// Opens or closes what such a token does; a bracket that it opens is of this style.
    fn open_or_close(&mut self, right: Role, style: Style) -> Result<(), AllocError>
        ensures { IfOk result (λ _. state_view self.new
            ≡ gone (state_view self.old) (role_view right) (style_view style)) }
    {
        if right.opens() {
            return self.open(right, style);
        }
        if right.closes() {
            self.opened.pop();
            self.operands.close(right);
        }
        Ok(())
    }

    /// Goes after a token that does this, binds so and is the last one to what follows; a bracket
    /// that it opens is of this style.
    pub(crate) fn take(
        &mut self,
        right: Role,
        binds: u8,
        last: Role,
        style: Style,
    ) -> Result<(), AllocError>
        ensures { IfOk result (λ _. state_view self.new ≡ taken (state_view self.old)
            (role_view right) binds (role_view last) (style_view style)) }
    {
        if right.is(Role::At) {
            self.leading = self.begins();
        }
        self.fresh = self.fresh_after(right, binds);
        self.open_or_close(right, style)?;
        self.last = last;
        Ok(())
    }
}
