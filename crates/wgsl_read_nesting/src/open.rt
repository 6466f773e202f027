//! What is open at a place of a text.

ghost use Rattle.std.specs.Prelude.{◌≡◌, [], ◌∷◌, drop, length, List, reverse, IfOk};
ghost use Rattle.wgsl_read_nesting.specs.declared.open.Open.{Open};
ghost use Rattle.wgsl_read_nesting.specs.Nesting.{without_operators};
ghost use Rattle.wgsl_read_nesting.specs.Effects.{begins_with_operator};

use std::alloc::{AllocError, Global};
use std::marker::Model;

/// A bracket, a block, a template list or a prefix operator that is open.
#[derive(Clone, Copy)]
pub enum Open {
    /// A bracket, a block or a template list.
    Bracket,
    /// A prefix operator.
    Operator,
}

/// The list of what is open, the innermost last; seen as a list, the innermost first.
#[derive(Drop)]
pub struct Opened {
    items: Vec<Open>,
}

impl Model for Opened {
    ghost Value = { List Open };

    ghost view = { λ opened. reverse opened.items.items };
}

impl Opened {
    pub(crate) fn new(alloc: Global) -> Opened
        ensures { result ≡ [] }
    {
        Opened {
            items: Vec::new(alloc),
        }
    }

    /// How many are open.
    pub(crate) fn depth(&self) -> usize
        ensures { result ≡ length self.now }
    {
        self.items.len()
    }

    pub(crate) fn push(&mut self, item: Open) -> Result<(), AllocError>
        ensures { IfOk result (λ _. self.new ≡ item ∷ self.old) }
    {
        self.items.push(item)?;
        Ok(())
    }

    /// Closes the innermost, if there is one.
    pub(crate) fn pop(&mut self)
        ensures { self.new ≡ drop 1 self.old }
    {
        self.items.pop();
    }

    /// Whether the innermost is a prefix operator.
    fn ends_in_operator(&self) -> bool
        ensures { result ≡ begins_with_operator self.now }
    {
        matches!(self.items.last(), Some(Open::Operator))
    }

    /// Closes the prefix operators inside the innermost bracket.
    pub(crate) fn close_operators(&mut self)
        ensures { self.new ≡ without_operators self.old }
    {
        'operators: while self.ends_in_operator() {
            self.pop();
        }
    }
}
