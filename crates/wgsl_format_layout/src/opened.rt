//! What is open at a place of a text.

ghost use Rattle.std.specs.Prelude.{◌≡◌, suc, [], ◌∷◌, drop, map, reverse, IfOk};
ghost use Rattle.wgsl_model_tidy.specs.Open as plain;
ghost use Rattle.wgsl_model_tidy.specs.LaidOut.{may_break, is_filled};
ghost use Rattle.wgsl_format_layout.specs.Kinds.{open_view, enclosing_view, style_view};
ghost use Rattle.wgsl_format_layout.specs.declared.opened.OpenAt.{OpenAt};

use std::alloc::{AllocError, Global};
use std::marker::Model;

/// The way in which a bracket is written.
#[derive(Clone, Copy)]
pub enum Style {
    /// In one line.
    Together,
    /// In lines of its own, those inside as the author has them.
    AsWritten,
    /// The same, with more lines where one is too long.
    Filled,
    /// In lines of its own, with each item in a line.
    ItemByItem,
}

/// Something that is open.
#[derive(Clone, Copy)]
pub enum Open {
    /// A block, or the members of a structure.
    Block,
    /// A bracket or a template list.
    Bracket(Style),
}

/// The innermost bracket that a place is in, by its lines.
#[derive(Clone, Copy)]
pub enum Enclosing {
    NoBracket,
    /// A bracket in one line.
    OneLine,
    /// A bracket in lines of its own, as the author has them.
    OwnLines,
    /// The same, with more lines where one is too long.
    FilledLines,
    /// A bracket in lines of its own, with each item in a line.
    ItemLines,
}

/// The bracket of a style.
fn enclosed_by(style: Style) -> Enclosing
    ensures { enclosing_view result ≡ plain.enclosed_by (style_view style) }
{
    match style {
        Style::Together => Enclosing::OneLine,
        Style::AsWritten => Enclosing::OwnLines,
        Style::Filled => Enclosing::FilledLines,
        Style::ItemByItem => Enclosing::ItemLines,
    }
}

impl Enclosing {
    /// Whether a line may end in it.
    pub(crate) fn may_break(self) -> bool
        ensures { result ≡ may_break (enclosing_view self) }
    {
        !matches!(self, Enclosing::OneLine)
    }

    /// Whether it is filled.
    pub(crate) fn is_filled(self) -> bool
        ensures { result ≡ is_filled (enclosing_view self) }
    {
        matches!(self, Enclosing::FilledLines)
    }
}

/// Something that is open, and the depth of the line where it closes.
#[derive(Clone, Copy)]
pub struct OpenAt {
    kind: Open,
    depth: usize,
}

/// A stack of what is open, the innermost last; seen as a list, the innermost first.
#[derive(Drop)]
pub struct Opened {
    items: Vec<OpenAt>,
}

impl Model for Opened {
    ghost Value = { plain.Opened };

    ghost view = { λ opened. map (λ (item : OpenAt). (open_view item.kind, item.depth)) (reverse opened.items.items) };
}

/// One level deeper. A line so deep that no number says its depth has no place in memory.
pub(crate) fn deeper(depth: usize) -> Result<usize, AllocError>
    ensures { IfOk result (λ below. below ≡ suc depth) }
{
    match depth.checked_add(1) {
        Some(below) => Ok(below),
        None => Err(AllocError),
    }
}

impl Opened {
    pub(crate) fn new(alloc: Global) -> Opened
        ensures { result ≡ [] }
    {
        Opened {
            items: Vec::new(alloc),
        }
    }

    pub(crate) fn push(&mut self, kind: Open, depth: usize) -> Result<(), AllocError>
        ensures { IfOk result (λ _. self.new ≡ (open_view kind, depth) ∷ self.old) }
    {
        self.items.push(OpenAt { kind, depth })?;
        Ok(())
    }

    /// Closes the innermost, if there is one.
    pub(crate) fn pop(&mut self)
        ensures { self.new ≡ drop 1 self.old }
    {
        self.items.pop();
    }

    /// Whether the innermost is a bracket or a template list.
    pub(crate) fn in_brackets(&self) -> bool
        ensures { result ≡ plain.in_brackets self.now }
    {
        match self.items.last() {
            Some(open) => matches!(open.kind, Open::Bracket(_)),
            None => false,
        }
    }

    /// The innermost, as far as it is a bracket.
    pub(crate) fn enclosing(&self) -> Enclosing
        ensures { enclosing_view result ≡ plain.enclosing self.now }
    {
        match self.items.last() {
            Some(open) => match open.kind {
                Open::Block => Enclosing::NoBracket,
                Open::Bracket(style) => enclosed_by(style),
            },
            None => Enclosing::NoBracket,
        }
    }

    /// How deep the lines in the innermost are.
    pub(crate) fn inner_depth(&self) -> Result<usize, AllocError>
        ensures { IfOk result (λ depth. depth ≡ plain.inner_depth self.now) }
    {
        match self.items.last() {
            Some(open) => deeper(open.depth),
            None => Ok(0),
        }
    }

    /// How deep the line is that closes it.
    pub(crate) fn outer_depth(&self) -> usize
        ensures { result ≡ plain.outer_depth self.now }
    {
        match self.items.last() {
            Some(open) => open.depth,
            None => 0,
        }
    }
}
