//! The trait of the nodes of a tree.

ghost use Rattle.std.specs.Prelude.{◌≡◌, IfOk, List, ℕ, Option, Some};
ghost use Rattle.std.specs.List.{list_any};
ghost use Rattle.std.specs.Option.{option_map};
ghost use Rattle.std.specs.Fn.{CalledAtMut};
ghost use Rattle.std.specs.List.Retain.{RetainsInTurn};
ghost use Rattle.wgsl_span.specs.declared.Span.{Span};
ghost use Rattle.wgsl_span.specs.declared.Spanned.{Spanned};
ghost use Rattle.wgsl_span.specs.Spanned.{spanned_node, spanned_span};
ghost use Rattle.wgsl_tree_expression.specs.View.{ident_name};
ghost use Rattle.wgsl_tree_attribute.specs.declared.attribute.Attribute.{Attribute};
ghost use Rattle.wgsl_tree_attribute.specs.Equality.{equal_attributes};
ghost use Rattle.wgsl_span.specs.Keeps.{NodeCalled};
ghost use Rattle.wgsl_tree_node.specs.Lending.{LendsAttributes, ChangesAttributesAlone};
ghost use Rattle.wgsl_span.specs.Lending.{with_node};
ghost use Rattle.std.specs.Borrow.{sem};

use std::alloc::{AllocError, Global};
use wgsl_span::{Span, Spanned};
use wgsl_tree_attribute::{Attribute, AttributeNode};
use wgsl_tree_expression::Ident;

/// A node of a tree.
pub trait SyntaxNode {
    // Where it is, if it knows.
    ghost span_of: { Self → Option Span };

    // Its name, if it has one.
    ghost name_of: { Self → Option (List ℕ) };

    // Its attributes.
    ghost attributes_of: { Self → List (Spanned Attribute) };

    // It with other attributes in place of its own, as many as it has.
    ghost with_attributes: { Self → List (Spanned Attribute) → Self };

    // The second is the first, but for its attributes.
    ghost same_else: { Self → Self → Type 0 };

    /// Returns where the node is, if it has a span.
    fn span(&self) -> Option<Span>
        ensures { result ≡ span_of self.now };

    /// Returns a copy of the name, if the node has one.
    fn ident(&self, alloc: Global) -> Result<Option<Ident>, AllocError>
        ensures { IfOk result (λ ident. option_map ident_name ident ≡ name_of self.now) };

    /// Returns the attributes, which are none if the node has no list.
    fn attributes(&self) -> &[AttributeNode]
        ensures { result.now ≡ attributes_of self.now };

    /// Returns the attributes, to be changed in place.
    fn attributes_mut(&mut self) -> &mut [AttributeNode]
        ensures* writes_back { sem 𝓛 (LendsAttributes Self.row with_attributes self.entry result) }
        ensures value { result.now ≡ attributes_of self.old }
        ensures change { ChangesAttributesAlone attributes_of same_else with_attributes self.old };

    /// Returns whether some attribute is equal to this one.
    fn contains_attribute(&self, attribute: &Attribute) -> bool
        ensures { result ≡ list_any (λ node. equal_attributes (spanned_node node) attribute.now) (attributes_of self.now) };

    /// Keeps the attributes for which the predicate returns true, as it left them, in order.
    fn retain_attributes_mut<F: FnMut(&mut Attribute) -> bool>(&mut self, f: F)
        requires { F.IsAlwaysCallable f }
        ensures kept { RetainsInTurn
            (NodeCalled (CalledAtMut F.FnMut)) f (attributes_of self.old) (attributes_of self.new) }
        ensures rest { same_else self.old self.new };
}

impl<T: SyntaxNode> SyntaxNode for Spanned<T> {
    ghost span_of = { λ node. Some (spanned_span node) };

    ghost name_of = { λ node. T.name_of (spanned_node node) };

    ghost attributes_of = { λ node. T.attributes_of (spanned_node node) };

    ghost with_attributes = { λ node attributes. with_node node (T.with_attributes (spanned_node node) attributes) };

    ghost same_else = { λ before after. (spanned_span after ≡ spanned_span before) × T.same_else (spanned_node before) (spanned_node after) };

    fn span(&self) -> Option<Span> {
        Some(self.span())
    }

    fn ident(&self, alloc: Global) -> Result<Option<Ident>, AllocError> {
        self.node().ident(alloc)
    }

    fn attributes(&self) -> &[AttributeNode] {
        self.node().attributes()
    }

    fn attributes_mut(&mut self) -> &mut [AttributeNode] {
        self.node_mut().attributes_mut()
    }

    fn contains_attribute(&self, attribute: &Attribute) -> bool {
        self.node().contains_attribute(attribute)
    }

    fn retain_attributes_mut<F: FnMut(&mut Attribute) -> bool>(&mut self, f: F) {
        self.node_mut().retain_attributes_mut(f);
    }
}
