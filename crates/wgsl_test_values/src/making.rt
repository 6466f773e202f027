//! Values made by hand for the tests, and what is asked of each that prints and is copied.

use std::alloc::{AllocError, Global};
use std::fmt;
use std::process::Abort;
use std::test::Fail;
use wgsl_span::{Span, Spanned};
use wgsl_tree_attribute::{Attribute, AttributeNode};
use wgsl_tree_expression::{Expression, ExpressionNode, Ident, TypeExpression};

pub(crate) fn text(alloc: Global, text: &str) -> Result<String, AllocError> {
    String::from_str(alloc, text)
}

pub(crate) fn ident(alloc: Global, name: &str) -> Result<Ident, AllocError> {
    Ok(Ident::new(text(alloc, name)?))
}

pub(crate) fn ty(alloc: Global, name: &str) -> Result<TypeExpression, AllocError> {
    Ok(TypeExpression::new(ident(alloc, name)?))
}

pub(crate) fn name(alloc: Global, name: &str) -> Result<ExpressionNode, AllocError> {
    Spanned::with_default_span(alloc, Expression::from(ident(alloc, name)?))
}

fn integer(alloc: Global, value: i64) -> Result<ExpressionNode, AllocError> {
    Spanned::with_default_span(alloc, Expression::from(value))
}

fn size(alloc: Global) -> Result<AttributeNode, AllocError> {
    Spanned::new(alloc, Attribute::Size(integer(alloc, 16)?), Span::new(0..9))
}

fn align(alloc: Global) -> Result<AttributeNode, AllocError> {
    Spanned::new(
        alloc,
        Attribute::Align(integer(alloc, 4)?),
        Span::new(10..19),
    )
}

/// `@size(16) @align(4)`, each where that text has it.
pub(crate) fn size_and_align(alloc: Global) -> Result<Vec<AttributeNode>, AllocError> {
    let mut attributes = Vec::new(alloc);
    attributes.push(size(alloc)?)?;
    attributes.push(align(alloc)?)?;
    Ok(attributes)
}

/// The text is printed of the value and of its copy, which is equal to it.
pub(crate) fn assert_text<
    T: fmt::Display + PartialEq + Drop,
    F: FnOnce(&T, Global) -> Result<T, AllocError>,
>(rt: &impl Abort, alloc: Global, value: T, clone: F, wanted: &str) -> Result<(), Fail>
    requires { F.IsAlwaysCallable clone }
{
    assert_eq!(rt; format!(in alloc; "{value}")?.as_str(), wanted);
    let copy = clone(&value, alloc)?;
    assert!(rt; copy == value, "the copy of {wanted}");
    assert_eq!(rt; format!(in alloc; "{copy}")?.as_str(), wanted);
    Ok(())
}
