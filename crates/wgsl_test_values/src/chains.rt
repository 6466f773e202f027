//! Chains of many operators, made by hand: their text, their copies and when they are equal.

use crate::making::{assert_text, name};
use std::alloc::{AllocError, Global};
use std::test::Fail;
use wgsl_span::Spanned;
use wgsl_tree_expression::{BinaryExpression, Expression};
use wgsl_tree_words::BinaryOperator;

/// How many operators a long chain has: a step down for each is more than the stack takes.
const MANY: u32 = 200_000;

/// A name, minus another a number of times.
fn differences(alloc: Global, first: &str, count: u32) -> Result<Expression, AllocError> {
    let mut chain = name(alloc, first)?;
    for _ in 0..count {
        let node = BinaryExpression {
            operator: BinaryOperator::Subtraction,
            left: chain,
            right: name(alloc, "b")?,
        };
        chain = Spanned::with_default_span(alloc, Expression::Binary(node))?;
    }
    Ok(chain.into_inner())
}

/// The text of the same.
fn differences_text(alloc: Global, first: &str, count: u32) -> Result<String, AllocError> {
    let mut text = String::from_str(alloc, first)?;
    for _ in 0..count {
        text.push_str(" - b")?;
    }
    Ok(text)
}

#[test]
fn a_long_chain_is_printed_and_copied(rt: HostRuntime) -> Result<(), Fail> {
    let chain = differences(rt.alloc(), "a", MANY)?;
    let text = differences_text(rt.alloc(), "a", MANY)?;
    assert_text(&rt, rt.alloc(), chain, Expression::clone, text.as_str())
}

/// Two long chains that differ in their first operand alone are not equal.
#[test]
fn long_chains_are_compared_to_their_first_operand(rt: HostRuntime) -> Result<(), Fail> {
    let chain = differences(rt.alloc(), "a", MANY)?;
    let other = differences(rt.alloc(), "c", MANY)?;
    assert!(rt; chain != other);
    Ok(())
}
