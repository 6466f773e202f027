//! Places in a text, and nodes that carry them.
#![tactic(auto)]

mod clones;
mod retain;

ghost use Rattle.std.specs.Prelude.{◌≡◌, IfOk};
ghost use Rattle.std.specs.Borrow.{sem};
ghost use Rattle.std.specs.Cmp.{on_per};
ghost use Rattle.wgsl_span.specs.Spanned.{spanned_node, spanned_span};
ghost use Rattle.wgsl_span.specs.Lending.{LendsNode};

pub use clones::CloneWith;
pub use retain::retain_nodes;
use std::alloc::{AllocError, Global};
use std::fmt;
use std::ops::Range;

/// The number of a file, for those who keep several.
pub type Id = u32;

/// A part of a text in bytes, from the start up to the end.
#[derive(Clone, Copy, PartialEq, Eq, Default, Debug)]
pub struct Span {
    pub start: usize,
    pub end: usize,
}

impl Span {
    /// Creates a span from the start of a range to its end.
    pub fn new(range: Range<usize>) -> Self
        ensures { result ≡ record { start = range.start; end = range.end } }
    {
        Span {
            start: range.start,
            end: range.end,
        }
    }

    /// Returns the span as a range.
    pub fn range(&self) -> Range<usize>
        ensures { result ≡ record { start = self.now.start; end = self.now.end } }
    {
        self.start..self.end
    }

    /// Returns the span from this one's start to the other's end.
    pub fn extend(&self, other: Span) -> Self
        ensures { result ≡ record { start = self.now.start; end = other.end } }
    {
        Span {
            start: self.start,
            end: other.end,
        }
    }
}

impl From<Range<usize>> for Span {
    ghost from_gives = { λ range span. span ≡ record { start = range.start; end = range.end } };

    fn from(range: Range<usize>) -> Self {
        Span::new(range)
    }
}

/// A node and where it is. Two are equal if their nodes are.
#[derive(Drop)]
#[derive_where(Debug; T)]
pub struct Spanned<T> {
    node: Box<T>,
    span: Span,
}

impl<T: Drop> Spanned<T> {
    /// Creates a node with its span.
    pub fn new(alloc: Global, node: T, span: Span) -> Result<Self, AllocError>
        ensures node { IfOk result (λ made. spanned_node made ≡ node) }
        ensures span { IfOk result (λ made. spanned_span made ≡ span) }
    {
        Ok(Spanned {
            node: Box::new(alloc, node)?,
            span,
        })
    }

    /// Creates a node whose span starts and ends at 0.
    pub fn with_default_span(alloc: Global, node: T) -> Result<Self, AllocError>
        ensures node { IfOk result (λ made. spanned_node made ≡ node) }
        ensures span { IfOk result (λ made. spanned_span made ≡ record { start = 0; end = 0 }) }
    {
        Spanned::new(alloc, node, Span { start: 0, end: 0 })
    }
}

impl<T> Spanned<T> {
    /// Creates a node that is already allocated with its span.
    pub fn new_boxed(node: Box<T>, span: Span) -> Self
        ensures node { spanned_node result ≡ node.value }
        ensures span { spanned_span result ≡ span }
    {
        Spanned { node, span }
    }

    /// Returns where the node is.
    pub fn span(&self) -> Span
        ensures { result ≡ spanned_span self.now }
    {
        self.span
    }

    /// Returns a reference to the node.
    pub fn node(&self) -> &T
        ensures { result.now ≡ spanned_node self.now }
    {
        &*self.node
    }

    /// Returns a mutable reference to the node.
    pub fn node_mut(&mut self) -> &mut T
        ensures* writes_back { sem 𝓛 (LendsNode T.row self.entry result) }
        ensures value { result.now ≡ spanned_node self.old }
    {
        &mut *self.node
    }

    /// Returns the node without its span.
    pub fn into_inner(self) -> T
        ensures { result ≡ spanned_node self }
    {
        Box::into_inner(self.node)
    }
}

impl<T: fmt::Display> fmt::Display for Spanned<T> {
    ghost output = { λ s. T.output (spanned_node s) };

    fn fmt<W: fmt::Write>(&self, f: &mut fmt::Formatter<W>) -> fmt::Result {
        self.node.fmt(f)
    }
}

impl<T: PartialEq> PartialEq for Spanned<T> {
    ghost eq = { λ a b. T.eq (spanned_node a) (spanned_node b) };

    ghost laws = { on_per spanned_node T.laws };

    fn eq(&self, other: &Self) -> bool {
        *self.node == *other.node
    }
}
