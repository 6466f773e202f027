//! What goes down on the left side of an expression, where a text has operators, components or
//! indices one after another.

ghost use Rattle.std.specs.Prelude.{◌≡◌, ◌+◌, ◌<◌, ◌≤◌, IfSome, IsNone, IfOk};
ghost use Rattle.wgsl_tree_expression.specs.declared.expression.Expression.TheViews.{size-Expression};
ghost use Rattle.wgsl_tree_expression.specs.View.{expression_node_view, expression_view};
ghost use Rattle.wgsl_tree_expression.specs.Chains.{left_of, steps_in, below, text_above};
ghost use Rattle.std.specs.Fmt.{WritesOnOk};
ghost use Rattle.wgsl_model.specs.Printed.Expressions.{print_expression_node};
ghost use Rattle.wgsl_tree_code.specs.Same.{same};
ghost use Rattle.wgsl_tree_code.specs.ExpressionNodes.{expression_code};

use crate::binary::equal_after;
use crate::expression::{Expression, ExpressionNode};
use std::alloc::{AllocError, Global};
use std::fmt;
use std::fmt::Write;
use wgsl_span::{CloneWith, Spanned};

/// The left operand, or what a component or an element is taken of.
fn left(node: &ExpressionNode) -> Option<&ExpressionNode>
    ensures view { IfSome result (λ left.
        expression_node_view left.now ≡ left_of (expression_node_view node.now)) }
    ensures steps { IfSome result (λ left.
        steps_in (expression_node_view left.now) + 1 ≡ steps_in (expression_node_view node.now)) }
    ensures smaller { IfSome result (λ left.
        size-Expression left.now.node.value < size-Expression node.now.node.value) }
    ensures none { IsNone result → steps_in (expression_node_view node.now) ≡ 0 }
{
    match node.node() {
        Expression::NamedComponent(inner) => Some(&inner.base),
        Expression::Indexing(inner) => Some(&inner.base),
        Expression::Binary(inner) => Some(&inner.left),
        Expression::Literal(_)
        | Expression::Parenthesized(_)
        | Expression::Unary(_)
        | Expression::FunctionCall(_)
        | Expression::TypeOrIdentifier(_) => None,
    }
}

/// Returns what is on the left as many steps down as there are, up to a limit, and their number.
#[tactic(auto, using(crate::proofs::Chains::below_more))]
pub fn descend(top: &ExpressionNode, limit: usize) -> (&ExpressionNode, usize)
    ensures view { expression_node_view result.0.now
        ≡ below result.1 (expression_node_view top.now) }
    ensures rest { steps_in (expression_node_view result.0.now) + result.1
        ≡ steps_in (expression_node_view top.now) }
    ensures limit { result.1 ≤ limit }
    ensures exact { limit ≤ steps_in (expression_node_view top.now) → result.1 ≡ limit }
    ensures smaller { size-Expression result.0.now.node.value + result.1
        ≤ size-Expression top.now.node.value }
{
    let mut bottom = top;
    'steps: for steps in 0..limit {
        let Some(left) = left(bottom) else {
            return (bottom, steps);
        };
        bottom = left;
    }
    (bottom, limit)
}

/// Drops an expression, taking apart what goes down on its left side by a loop.
#[cycle(expression)]
pub(crate) fn drop_chain(node: ExpressionNode) {
    let mut chain = node.into_inner();
    loop {
        match chain {
            Expression::Literal(_)
            | Expression::Parenthesized(_)
            | Expression::Unary(_)
            | Expression::FunctionCall(_)
            | Expression::TypeOrIdentifier(_) => return,
            Expression::NamedComponent(inner) => {
                let (base, _) = inner.into_parts();
                chain = base.into_inner();
            }
            Expression::Indexing(inner) => {
                let (base, _) = inner.into_parts();
                chain = base.into_inner();
            }
            Expression::Binary(inner) => {
                let (left, _, _) = inner.into_parts();
                chain = left.into_inner();
            }
        }
    }
}

#[cycle(clone)]
pub(crate) fn clone_node(node: &ExpressionNode, alloc: Global) -> Result<ExpressionNode, AllocError>
    ensures { IfOk result (λ copy. expression_node_view copy ≡ expression_node_view node.now) }
{
    Spanned::new(alloc, node.node().clone_with(alloc)?, node.span())
}

/// Copies an expression: first what is furthest down on the left, then what is around it.
#[cycle(clone)]
pub(crate) fn clone_chain(top: &ExpressionNode, alloc: Global) -> Result<ExpressionNode, AllocError>
    ensures { IfOk result (λ copy. expression_node_view copy ≡ expression_node_view top.now) }
{
    let (bottom, steps) = descend(top, usize::MAX);
    let copy = clone_node(bottom, alloc)?;
    clone_above(top, steps, copy, alloc)
}

/// Copies what is around a copy of what is some steps down. It calls itself for the lower half
/// of the steps, so no more calls are open than their number has binary digits.
#[cycle(clone)]
#[tactic(auto, using(crate::proofs::Chains::copies))]
fn clone_above(
    top: &ExpressionNode,
    steps: usize,
    bottom: ExpressionNode,
    alloc: Global,
) -> Result<ExpressionNode, AllocError>
    requires steps { steps ≤ steps_in (expression_node_view top.now) }
    requires bottom { expression_node_view bottom ≡ below steps (expression_node_view top.now) }
    ensures { IfOk result (λ copy. expression_node_view copy ≡ expression_node_view top.now) }
{
    let mut left = steps;
    let mut copy = bottom;
    'halves: while left > 1 {
        let (middle, upper) = descend(top, left / 2);
        copy = clone_above(middle, left - upper, copy, alloc)?;
        left = upper;
    }
    if left == 0 {
        return Ok(copy);
    }
    Spanned::new(alloc, top.node().clone_onto(copy, alloc)?, top.span())
}

/// Whether two expressions are equal. What goes down on their left sides is compared by a loop.
#[cycle(equal)]
#[tactic(auto, using(crate::proofs::Equalities::chains))]
pub(crate) fn equal_chains(a: &ExpressionNode, b: &ExpressionNode) -> bool
    ensures { result ≡ same (expression_code (expression_view a.now.node.value))
        (expression_code (expression_view b.now.node.value)) }
{
    let mut first = a.node();
    let mut second = b.node();
    'steps: loop {
        match (first, second) {
            (Expression::NamedComponent(x), Expression::NamedComponent(y)) => {
                if x.component.name() != y.component.name() {
                    return false;
                }
                first = x.base.node();
                second = y.base.node();
            }
            (Expression::Indexing(x), Expression::Indexing(y)) => {
                if !(*x.index.node() == *y.index.node()) {
                    return false;
                }
                first = x.base.node();
                second = y.base.node();
            }
            (Expression::Binary(x), Expression::Binary(y)) => {
                if !equal_after(x, y) {
                    return false;
                }
                first = x.left.node();
                second = y.left.node();
            }
            _ => return *first == *second,
        }
    }
}

/// Writes an expression: first what is furthest down on the left, then what is after it.
#[cycle(display)]
pub(crate) fn write_chain<W: fmt::Write>(
    top: &ExpressionNode,
    f: &mut fmt::Formatter<W>,
) -> fmt::Result
    ensures { WritesOnOk W.write_str_gives f.old result
        (print_expression_node (expression_node_view top.now)) f.new }
{
    let (bottom, steps) = descend(top, usize::MAX);
    write!(f, "{bottom}")?;
    write_above(top, steps, f)
}

/// Writes what is printed after what is some steps down. It calls itself for the lower half
/// of the steps, so no more calls are open than their number has binary digits.
#[cycle(display)]
#[tactic(auto, using(crate::proofs::Chains::half_some))]
fn write_above<W: fmt::Write>(
    top: &ExpressionNode,
    steps: usize,
    f: &mut fmt::Formatter<W>,
) -> fmt::Result
    requires { steps ≤ steps_in (expression_node_view top.now) }
    ensures { WritesOnOk W.write_str_gives f.old result
        (text_above steps (expression_node_view top.now)) f.new }
{
    let mut left = steps;
    'halves: while left > 1 {
        let (middle, upper) = descend(top, left / 2);
        write_above(middle, left - upper, f)?;
        left = upper;
    }
    if left == 0 {
        return Ok(());
    }
    top.node().write_after(f)
}
