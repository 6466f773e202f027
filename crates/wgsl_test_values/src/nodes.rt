//! Blocks, members and declarations as syntax nodes.

use crate::making::{assert_text, ident, size_and_align, ty};
use std::alloc::{AllocError, Global};
use std::test::Fail;
use wgsl_span::{Span, Spanned};
use wgsl_tree_attribute::Attribute;
use wgsl_tree_node::SyntaxNode;
use wgsl_tree_statement::{CompoundStatement, Statement};
use wgsl_tree_unit::{Function, GlobalDeclaration, StructMember, StructMemberNode};

/// A block `@const { }`.
fn marked_block(alloc: Global) -> Result<CompoundStatement, AllocError> {
    let mut block = CompoundStatement::new(alloc);
    let attribute = Spanned::with_default_span(alloc, Attribute::Const)?;
    block.attributes.push(attribute)?;
    Ok(block)
}

/// A block as a statement has the attributes of the block.
#[test]
fn attributes_of_a_block(rt: HostRuntime) -> Result<(), Fail> {
    let block = marked_block(rt.alloc())?;
    assert!(rt; block.contains_attribute(&Attribute::Const));
    let mut statement = Statement::from(block);
    assert!(rt; statement.contains_attribute(&Attribute::Const));
    statement.retain_attributes_mut(|_| false);
    assert!(rt; statement.attributes().is_empty());
    let text = "{\n\n}";
    assert_text(&rt, rt.alloc(), statement, Statement::clone, text)
}

/// A declaration made from a function has the attributes of the function.
#[test]
fn attributes_of_a_function(rt: HostRuntime) -> Result<(), Fail> {
    let mut function = Function::new(rt.alloc(), ident(rt.alloc(), "f")?);
    let attribute = Spanned::with_default_span(rt.alloc(), Attribute::Fragment)?;
    function.attributes.push(attribute)?;
    let declaration = GlobalDeclaration::from(function);
    assert_eq!(rt; declaration.attributes().len(), 1);
    assert!(rt; declaration.contains_attribute(&Attribute::Fragment));
    let text = "@fragment\nfn f() {\n\n}";
    assert_text(&rt, rt.alloc(), declaration, GlobalDeclaration::clone, text)
}

/// A member `@size(16) @align(4) x: f32`, with its attributes where that text has them.
fn member(alloc: Global) -> Result<StructMember, AllocError> {
    let mut member = StructMember::new(alloc, ident(alloc, "x")?, ty(alloc, "f32")?);
    member.attributes = size_and_align(alloc)?;
    Ok(member)
}

fn node(alloc: Global) -> Result<StructMemberNode, AllocError> {
    Spanned::new(alloc, member(alloc)?, Span::new(0..26))
}

#[test]
fn attributes_are_retained(rt: HostRuntime) -> Result<(), Fail> {
    let mut node = node(rt.alloc())?;
    assert!(rt; SyntaxNode::span(&node) == Some(Span::new(0..26)));
    node.retain_attributes_mut(|attribute| {
        if attribute.is_size() {
            return false;
        }
        if attribute.is_align() {
            *attribute = Attribute::Invariant;
        }
        true
    });
    for attribute in node.attributes() {
        assert_eq!(rt; attribute.span(), Span::new(10..19));
    }
    let text = "@invariant\nx: f32";
    let member = node.into_inner();
    assert_text(&rt, rt.alloc(), member, StructMember::clone, text)
}
