//! The operands that go on at a place of a text.

ghost use Rattle.std.specs.Prelude.{◌≡◌, ◌==◌, true, [], ◌∷◌, List, drop, map, reverse, IfOk};
ghost use Rattle.wgsl_model_tidy.specs.Open as plain;
ghost use Rattle.wgsl_model_tidy.specs.Roles.{closes};
ghost use Rattle.wgsl_model_tidy.specs.LaidOut.{begins_in_operands};
ghost use Rattle.wgsl_format_layout.specs.View.{role_view};
ghost use Rattle.wgsl_format_layout.specs.Kinds.{part_view, any_go_on};

use crate::role::Role;
use std::alloc::{AllocError, Global};
use std::marker::Model;

/// Operands with a line before each operator of a precedence, so many levels deeper than the lines
/// in the innermost bracket or block; or a bracket or a block that is open in them.
#[derive(Clone, Copy)]
pub enum Part {
    Parted { precedence: u8, more: usize },
    Within,
}

impl Part {
    /// The precedence before whose operators lines begin, or 0.
    fn precedence(self) -> u8
        ensures { result ≡ plain.parted_at (part_view self ∷ []) }
    {
        match self {
            Part::Parted { precedence, .. } => precedence,
            Part::Within => 0,
        }
    }
}

/// A stack of the operands that go on, the innermost last; seen as a list, the innermost first.
#[derive(Drop)]
pub struct Operands {
    items: Vec<Part>,
}

impl Model for Operands {
    ghost Value = { List plain.Operands };

    ghost view = { λ operands. map part_view (reverse operands.items.items) };
}

impl Operands {
    pub(crate) fn new(alloc: Global) -> Operands
        ensures { result ≡ [] }
    {
        Operands {
            items: Vec::new(alloc),
        }
    }

    /// Begins operands with a line before each operator of a precedence, so many levels deeper.
    pub(crate) fn part(&mut self, precedence: u8, more: usize) -> Result<(), AllocError>
        ensures { IfOk result (λ _. self.new ≡ plain.parted precedence more ∷ self.old) }
    {
        self.items.push(Part::Parted { precedence, more })?;
        Ok(())
    }

    /// The precedence before whose operators lines begin in the innermost, or 0.
    pub(crate) fn parted_at(&self) -> u8
        ensures { result ≡ plain.parted_at self.now }
    {
        match self.items.last() {
            Some(part) => part.precedence(),
            None => 0,
        }
    }

    /// Whether lines begin before operators there.
    pub(crate) fn are_parted(&self) -> bool
        ensures { result ≡ plain.are_parted self.now }
    {
        self.parted_at() != 0
    }

    /// Whether a line begins with a token that does this and binds so: an operator before which
    /// lines begin, or `{` after such operands.
    pub(crate) fn begins_line(&self, right: Role, binds: u8) -> bool
        ensures { result ≡ begins_in_operands self.now (role_view right) binds }
    {
        if right.is(Role::BlockStart) {
            return self.are_parted();
        }
        right.is(Role::Binary) && self.begins_with(binds)
    }

    /// Whether lines begin before operators of this precedence.
    fn begins_with(&self, precedence: u8) -> bool
        ensures { result ≡ (precedence == plain.parted_at (plain.up_to precedence self.now)) }
    {
        let mut count = self.items.len();
        'operands: while count > 0 {
            let other = self.items[count - 1].precedence();
            if other <= precedence {
                return precedence == other;
            }
            count -= 1;
        }
        precedence == 0
    }

    /// How many levels deeper the lines in the innermost are.
    pub(crate) fn more(&self) -> usize
        ensures { result ≡ plain.operand_levels self.now }
    {
        match self.items.last() {
            Some(Part::Parted { more, .. }) => *more,
            Some(Part::Within) | None => 0,
        }
    }

    /// Ends those outside of which a token is that does this and binds so.
    pub(crate) fn go_on(&mut self, right: Role, binds: u8)
        ensures { self.new ≡ plain.operands_before self.old (role_view right) binds }
    {
        if right.ends_operands() {
            self.leave_all();
        } else if right.is(Role::Binary) {
            self.leave(binds);
        }
    }

    /// Whether any go on in the innermost bracket or block.
    fn any_go_on(&self) -> bool
        ensures { result ≡ any_go_on self.now }
    {
        matches!(self.items.last(), Some(Part::Parted { .. }))
    }

    /// Ends the innermost, or goes out of a bracket or a block.
    fn pop(&mut self)
        ensures { self.new ≡ drop 1 self.old }
    {
        self.items.pop();
    }

    /// Ends those of the innermost bracket or block.
    fn leave_all(&mut self)
        ensures { self.new ≡ plain.outside_operands self.old }
    {
        'operands: while self.any_go_on() {
            self.pop();
        }
    }

    /// Ends those with operators that bind stronger than this precedence.
    fn leave(&mut self, precedence: u8)
        ensures { self.new ≡ plain.up_to precedence self.old }
    {
        'operands: while precedence < self.parted_at() {
            self.pop();
        }
    }

    /// Goes into a bracket or a block.
    pub(crate) fn open(&mut self) -> Result<(), AllocError>
        ensures { IfOk result (λ _. self.new ≡ plain.within ∷ self.old) }
    {
        self.items.push(Part::Within)?;
        Ok(())
    }

    /// Goes out of a bracket or a block by a token of this role, which closes it.
    pub(crate) fn close(&mut self, right: Role)
        ensures { closes (role_view right) ≡ true →
            self.new ≡ plain.operands_after self.old (role_view right) }
    {
        self.pop();
        if right.is(Role::BlockEnd) {
            self.leave_all();
        }
    }
}
