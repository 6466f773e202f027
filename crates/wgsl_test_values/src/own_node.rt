//! Nodes of the user's own by the names of `wgsl_parse` alone: by all calls, by its parts, and
//! without attributes.

ghost use Rattle.std.specs.Prelude.{◌≡◌, Some, None};
ghost use Rattle.std.specs.Vec.{with_items};
ghost use Rattle.wgsl_parse.specs.ExpressionView.{ident_name};

use crate::making::{ident, size_and_align};
use std::alloc::{AllocError, Global};
use std::test::Fail;
use wgsl_parse::syntax::{Attribute, AttributeNode, Attributes, Ident, Span};
use wgsl_parse::syntax_node::{
    BareNode, NodeAttributes, NodeName, SyntaxNode, has_attribute, retain_nodes,
};

#[derive(Drop)]
struct Member {
    attributes: Vec<AttributeNode>,
    ident: Ident,
}

impl SyntaxNode for Member {
    ghost span_of = { λ _. None };

    ghost name_of = { λ node. Some (ident_name node.ident) };

    ghost attributes_of = { λ node. node.attributes.items };

    ghost with_attributes = { λ node attributes. record node { attributes = with_items node.attributes attributes } };

    ghost same_else = { λ before after. after ≡ record before { attributes = after.attributes } };

    fn span(&self) -> Option<Span> {
        None
    }

    fn ident(&self, alloc: Global) -> Result<Option<Ident>, AllocError> {
        Ok(Some(self.ident.clone(alloc)?))
    }

    fn attributes(&self) -> &[AttributeNode] {
        self.attributes.as_slice()
    }

    fn attributes_mut(&mut self) -> &mut [AttributeNode] {
        self.attributes.as_mut_slice()
    }

    fn contains_attribute(&self, attribute: &Attribute) -> bool {
        has_attribute(&self.attributes, attribute)
    }

    fn retain_attributes_mut<F: FnMut(&mut Attribute) -> bool>(&mut self, f: F) {
        retain_nodes(&mut self.attributes, f);
    }
}

#[derive(Drop)]
struct Labelled {
    attributes: Attributes,
    label: Ident,
}

impl NodeName for Labelled {
    ghost own_name = { λ node. Some (ident_name node.label) };

    fn own_ident(&self) -> Option<&Ident> {
        Some(&self.label)
    }
}

impl NodeAttributes for Labelled {
    ghost list_of = { λ node. Some node.attributes };

    ghost with_list = { λ node list. record node { attributes = list } };

    fn own_attributes(&self) -> Option<&Attributes> {
        Some(&self.attributes)
    }

    fn own_attributes_mut(&mut self) -> Option<&mut Attributes> {
        Some(&mut self.attributes)
    }
}

#[derive(Drop)]
struct Bare {
    number: u64,
}

impl BareNode for Bare {}

/// A member with `@size(16) @align(4)`.
fn sample(alloc: Global) -> Result<Member, AllocError> {
    Ok(Member {
        attributes: size_and_align(alloc)?,
        ident: ident(alloc, "x")?,
    })
}

#[test]
fn a_member_answers(rt: HostRuntime) -> Result<(), Fail> {
    let member = sample(rt.alloc())?;
    assert!(rt; member.span().is_none());
    assert!(rt; member.ident(rt.alloc())?.is_some());
    assert!(rt; !member.contains_attribute(&Attribute::Const));
    for attribute in member.attributes() {
        // By content, wherever the two are.
        assert!(rt; member.contains_attribute(attribute.node()));
    }
    Ok(())
}

#[test]
fn attributes_are_written_and_retained(rt: HostRuntime) -> Result<(), Fail> {
    let mut member = sample(rt.alloc())?;
    member.retain_attributes_mut(|attribute| attribute.is_align());
    for attribute in member.attributes_mut() {
        assert_eq!(rt; attribute.span(), Span::new(10..19));
        *attribute.node_mut() = Attribute::Const;
    }
    assert!(rt; member.contains_attribute(&Attribute::Const));
    Ok(())
}

#[test]
fn a_node_by_its_parts(rt: HostRuntime) -> Result<(), Fail> {
    let mut node = Labelled {
        attributes: size_and_align(rt.alloc())?,
        label: ident(rt.alloc(), "x")?,
    };
    assert!(rt; node.span().is_none());
    assert!(rt; node.ident(rt.alloc())?.is_some());
    node.retain_attributes_mut(|attribute| attribute.is_align());
    assert_eq!(rt; node.attributes().len(), 1);
    for attribute in node.attributes_mut() {
        *attribute.node_mut() = Attribute::Const;
    }
    assert!(rt; node.contains_attribute(&Attribute::Const));
    Ok(())
}

#[test]
fn a_node_without_attributes(rt: HostRuntime) -> Result<(), Fail> {
    let mut node = Bare { number: 3 };
    node.retain_attributes_mut(|_| false);
    assert!(rt; node.attributes().is_empty());
    assert!(rt; node.attributes_mut().is_empty());
    assert!(rt; !node.contains_attribute(&Attribute::Const));
    assert!(rt; node.span().is_none());
    assert!(rt; node.ident(rt.alloc())?.is_none());
    assert_eq!(rt; node.number, 3);
    Ok(())
}
