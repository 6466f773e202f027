//! What a node says of itself: its name and its list of attributes. The rest follows once for all
//! nodes.

ghost use Rattle.std.specs.Prelude.{◌≡◌, List, ℕ, Option, Some, None};
ghost use Rattle.std.specs.Option.{option_map};
ghost use Rattle.std.specs.Borrow.{Bor, MutBor, sem};
ghost use Rattle.wgsl_tree_expression.specs.declared.ident.Ident.{Ident};
ghost use Rattle.wgsl_tree_expression.specs.View.{ident_name};
ghost use Rattle.wgsl_tree_node.specs.Parts.{AttributeList, LendsList, list_with, attributes_in, with_list_of};

use crate::attribute_list::{has_attribute, no_attributes};
use crate::syntax_node::SyntaxNode;
use std::alloc::{AllocError, Global};
use wgsl_span::{Span, retain_nodes};
use wgsl_tree_attribute::{Attribute, AttributeNode, Attributes};
use wgsl_tree_expression::Ident;

/// A node that may have a name of its own.
pub trait NodeName {
    // Its name, if it has one.
    ghost own_name: { Self → Option (List ℕ) };

    /// Returns the name, if the node has one of its own.
    fn own_ident(&self) -> Option<&Ident>
        ensures { option_map (λ (ident : Bor Ident). ident_name ident.now) result ≡ own_name self.now };
}

/// A node that may have a list of attributes of its own.
pub trait NodeAttributes {
    // Its list, if it has one.
    ghost list_of: { Self → Option AttributeList };

    // It with another list in place of its own.
    ghost with_list: { Self → AttributeList → Self };

    /// Returns the list, if the node has one of its own.
    fn own_attributes(&self) -> Option<&Attributes>
        ensures { option_map (λ (list : Bor AttributeList). list.now) result ≡ list_of self.now };

    /// Returns the list, to be changed in place, if the node has one of its own.
    fn own_attributes_mut(&mut self) -> Option<&mut Attributes>
        ensures* writes_back { sem 𝓛 (LendsList Self.row with_list self.entry result) }
        ensures value { option_map (λ (list : MutBor AttributeList). list.now) result
            ≡ list_of self.old }
        ensures change { (list : AttributeList) → list_of (with_list self.old list) ≡ option_map (λ _. list) (list_of self.old) };
}

/// A node that has no name of its own.
pub trait UnnamedNode {}

/// A node that has no list of attributes of its own.
pub trait UnattributedNode {}

/// A node that has no span, name or attributes of its own.
pub trait BareNode {}

impl<T: BareNode> UnnamedNode for T {}

impl<T: BareNode> UnattributedNode for T {}

impl<T: UnnamedNode> NodeName for T {
    ghost own_name = { λ _. None };

    fn own_ident(&self) -> Option<&Ident> {
        None
    }
}

impl<T: UnattributedNode> NodeAttributes for T {
    ghost list_of = { λ _. None };

    ghost with_list = { λ node _. node };

    fn own_attributes(&self) -> Option<&Attributes> {
        None
    }

    fn own_attributes_mut(&mut self) -> Option<&mut Attributes> {
        None
    }
}

impl<T: NodeName + NodeAttributes> SyntaxNode for T {
    ghost span_of = { λ _. None };

    ghost name_of = { λ node. T.own_name node };

    ghost attributes_of = { λ node. attributes_in (T.list_of node) };

    ghost with_attributes = { λ node attributes. with_list_of T.with_list node (list_with (T.list_of node) attributes) };

    ghost same_else = { λ before after. after ≡ with_list_of T.with_list before (T.list_of after) };

    fn span(&self) -> Option<Span> {
        None
    }

    fn ident(&self, alloc: Global) -> Result<Option<Ident>, AllocError> {
        match self.own_ident() {
            Some(ident) => Ok(Some(ident.clone(alloc)?)),
            None => Ok(None),
        }
    }

    fn attributes(&self) -> &[AttributeNode] {
        match self.own_attributes() {
            Some(list) => list.as_slice(),
            None => &[],
        }
    }

    fn attributes_mut(&mut self) -> &mut [AttributeNode] {
        if self.own_attributes().is_none() {
            return no_attributes(self);
        }
        let Some(list) = self.own_attributes_mut() else {
            unreachable!()
        };
        list.as_mut_slice()
    }

    fn contains_attribute(&self, attribute: &Attribute) -> bool {
        has_attribute(self.attributes(), attribute)
    }

    fn retain_attributes_mut<F: FnMut(&mut Attribute) -> bool>(&mut self, f: F) {
        if let Some(list) = self.own_attributes_mut() {
            retain_nodes(list, f);
        }
    }
}
