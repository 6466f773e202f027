//! What tokens do, one after the other.

ghost use Rattle.std.specs.Prelude.{◌≡◌, ◌==◌, ◌&&◌, [], ◌∷◌, drop, map, IfOk};
ghost use Rattle.wgsl_model.specs.Tokens.ClassTable.{SymMinusMinus};
ghost use Rattle.wgsl_model_tidy.specs.Open as plain;
ghost use Rattle.wgsl_lex_token.specs.View.{class_of_kind};
ghost use Rattle.wgsl_format_layout.specs.View.{role_view};
ghost use Rattle.wgsl_format_layout.specs.OpenKinds.{kind_view, open_kind, operand_next};
ghost use Rattle.wgsl_format_layout.specs.Contexts.{IsContext};

use crate::role::{Role, role_of};
use std::alloc::{AllocError, Global};
use std::marker::Model;
use wgsl_lex_token::kind::TokenKind;

/// Something that is open.
#[derive(Clone, Copy)]
pub enum Kind {
    /// The block of a statement, a declaration or a clause.
    Block,
    /// The members of a structure.
    Members,
    /// The arguments of an attribute.
    Arguments,
    /// Every other bracket, and a template list.
    Bracket,
}

/// A stack of what is open, the innermost last; seen as a list, the innermost first.
#[derive(Drop)]
pub struct Kinds {
    items: Vec<Kind>,
}

impl Model for Kinds {
    ghost use Rattle.std.specs.Prelude.{List, map, reverse};
    ghost use Rattle.wgsl_model_tidy.specs.Open as plain;

    ghost Value = { List plain.Open };

    ghost use Rattle.wgsl_format_layout.specs.OpenKinds.{kind_view};

    ghost view = { λ kinds. map kind_view (reverse kinds.items.items) };
}

impl Kinds {
    fn new(alloc: Global) -> Kinds
        ensures { result ≡ [] }
    {
        Kinds {
            items: Vec::new(alloc),
        }
    }

    fn push(&mut self, kind: Kind) -> Result<(), AllocError>
        ensures { IfOk result (λ _. self.new ≡ kind_view kind ∷ self.old) }
    {
        self.items.push(kind)?;
        Ok(())
    }

    /// Closes the innermost, if there is one.
    fn pop(&mut self)
        ensures { self.new ≡ drop 1 self.old }
    {
        self.items.pop();
    }
}

/// What is known after a token of what it and those before it do.
#[derive(Drop)]
pub struct Context {
    opened: Kinds,
    /// What the last token is to what follows.
    pub last: Role,
    /// Whether the next `{` opens a structure.
    structure: bool,
}

/// Whether an operand begins with a kind of token, if there is one.
fn begins_operand(next: Option<TokenKind>) -> bool
    ensures { result ≡ operand_next next }
{
    match next {
        Some(kind) => role_of(false, kind).begins_operand(),
        None => false,
    }
}

/// Whether a kind of token is a `--` before an operand, with a kind of token after it or none.
fn is_subtraction(kind: TokenKind, next: Option<TokenKind>) -> bool
    ensures { result ≡ (class_of_kind kind == SymMinusMinus && operand_next next) }
{
    kind as u8 == TokenKind::SymMinusMinus as u8 && begins_operand(next)
}

impl Context {
    pub(crate) fn new(alloc: Global) -> Context
        ensures { IsContext result plain.start }
    {
        Context {
            opened: Kinds::new(alloc),
            last: Role::Beginning,
            structure: false,
        }
    }

    /// What a kind of token does here, with a kind of token after it or none.
    pub(crate) fn role_in(&self, kind: TokenKind, next: Option<TokenKind>) -> Role
        ensures { (state : plain.LayoutState) → IsContext self.now state →
            role_view result ≡ plain.role_in state (class_of_kind kind) (operand_next next) }
    {
        if is_subtraction(kind, next) {
            return Role::Binary;
        }
        role_of(self.last.ends_operand(), kind)
    }

    /// Whether the innermost has the arguments of an attribute.
    fn in_arguments(&self) -> bool
        ensures { (state : plain.LayoutState) → IsContext self.now state →
            result ≡ plain.in_arguments state.opened }
    {
        matches!(self.opened.items.last(), Some(Kind::Arguments))
    }

    /// Whether the innermost has the members of a structure.
    fn in_members(&self) -> bool
        ensures { (state : plain.LayoutState) → IsContext self.now state →
            result ≡ plain.in_members state.opened }
    {
        matches!(self.opened.items.last(), Some(Kind::Members))
    }

    /// Whether the innermost is a bracket or a template list.
    fn in_brackets(&self) -> bool
        ensures { (state : plain.LayoutState) → IsContext self.now state →
            result ≡ plain.in_brackets state.opened }
    {
        matches!(
            self.opened.items.last(),
            Some(Kind::Bracket | Kind::Arguments)
        )
    }

    /// What such a token is to what follows it.
    fn last_after(&self, right: Role) -> Role
        ensures { (state : plain.LayoutState) → IsContext self.now state →
            role_view result ≡ plain.last_after state (role_view right) }
    {
        if self.last.is(Role::At) && !right.opens_bracket() {
            return Role::Attribute;
        }
        match right {
            Role::Closing if self.in_arguments() => Role::Attribute,
            Role::Comma if self.in_members() => Role::ItemEnd,
            Role::Semicolon if !self.in_brackets() => Role::ItemEnd,
            _ => right,
        }
    }

    /// What a `{` opens.
    fn block_kind(&self) -> Kind
        ensures { (state : plain.LayoutState) → IsContext self.now state →
            kind_view result ≡ plain.block_opened state }
    {
        if self.structure {
            Kind::Members
        } else {
            Kind::Block
        }
    }

    /// What a `(` or a `[` opens.
    fn bracket_kind(&self) -> Kind
        ensures { (state : plain.LayoutState) → IsContext self.now state →
            kind_view result ≡ plain.bracket_opened state plain.together }
    {
        if self.last.is(Role::Attribute) {
            Kind::Arguments
        } else {
            Kind::Bracket
        }
    }

    /// Opens or closes what such a token does.
    fn open_or_close(&mut self, right: Role) -> Result<(), AllocError>
        ensures opened { IfOk result (λ _. (state : plain.LayoutState) → IsContext self.old state →
            self.new.opened ≡ map open_kind
            (plain.opened_after_token state 0 (role_view right) plain.together)) }
        ensures last { IfOk result (λ _. self.new.last ≡ self.old.last) }
        ensures structure { IfOk result (λ _. self.new.structure ≡ self.old.structure) }
    {
        match right {
            Role::BlockStart => {
                let kind = self.block_kind();
                self.opened.push(kind)?;
            }
            Role::Opening => {
                let kind = self.bracket_kind();
                self.opened.push(kind)?;
            }
            Role::TemplateStart => self.opened.push(Kind::Bracket)?,
            Role::Closing | Role::TemplateEnd | Role::BlockEnd => self.opened.pop(),
            _ => {}
        }
        Ok(())
    }

    /// Whether the next `{` opens a structure after such a token.
    fn structure_after(&self, kind: TokenKind, right: Role) -> bool
        ensures { (state : plain.LayoutState) → IsContext self.now state →
            result ≡ plain.structure_after state (class_of_kind kind) (role_view right) }
    {
        if right.is(Role::BlockStart) {
            return false;
        }
        if kind as u8 == TokenKind::KwStruct as u8 && !self.last.is(Role::At) {
            return true;
        }
        self.structure
    }

    /// Goes after a token of this role.
    pub(crate) fn take(&mut self, kind: TokenKind, right: Role) -> Result<(), AllocError>
        ensures { IfOk result (λ _. (state : plain.LayoutState) → IsContext self.old state →
            IsContext self.new
            (plain.after_token state 0 (class_of_kind kind) (role_view right) plain.together)) }
    {
        let last = self.last_after(right);
        let structure = self.structure_after(kind, right);
        self.open_or_close(right)?;
        self.last = last;
        self.structure = structure;
        Ok(())
    }
}
