//! Expressions, with a loop for the operands, components and indices on their left sides.

ghost use Rattle.std.specs.Prelude.{◌≡◌, ◌+◌, ◌<◌, ◌≤◌, ◌++◌, ℕ, List, IfSome, IsNone, OnOk};
ghost use Rattle.wgsl_model.specs.Printed.Expressions.{expression_in};
ghost use Rattle.wgsl_model_packed.specs.Expressions.{leftmost};
ghost use Rattle.wgsl_tree_expression.specs.Chains.{below, left_of, steps_in};
ghost use Rattle.wgsl_tree_expression.specs.View.{expression_node_view, expression_view};
ghost use Rattle.wgsl_tree_expression.specs.declared.expression.Expression.TheViews.{size-Expression};

use crate::expression::{pack_after, pack_first};
use std::alloc::AllocError;
use wgsl_tree_expression::{Expression, ExpressionNode};

/// Returns what an expression has on its left side: the left operand, or what a component or an
/// element is taken of.
pub fn left(node: &ExpressionNode) -> Option<&ExpressionNode>
    ensures view { IfSome result (λ left.
        expression_node_view left.now ≡ left_of (expression_node_view node.now)) }
    ensures steps { IfSome result (λ left.
        steps_in (expression_node_view left.now) + 1 ≡ steps_in (expression_node_view node.now)) }
    ensures smaller { IfSome result (λ left.
        size-Expression left.now.node.value < size-Expression node.now.node.value) }
    ensures none { IsNone result → steps_in (expression_node_view node.now) ≡ 0 }
{
    match node.node() {
        Expression::NamedComponent(inner) => Some(&inner.base),
        Expression::Indexing(inner) => Some(&inner.base),
        Expression::Binary(inner) => Some(&inner.left),
        Expression::Literal(_)
        | Expression::Parenthesized(_)
        | Expression::Unary(_)
        | Expression::FunctionCall(_)
        | Expression::TypeOrIdentifier(_) => None,
    }
}

/// Returns what is on the left as many steps down as there are, up to a limit, and their number.
#[tactic(auto, using(wgsl_tree_expression::proofs::Chains::below_more))]
fn descend(top: &ExpressionNode, limit: usize) -> (&ExpressionNode, usize)
    ensures view { expression_node_view result.0.now
        ≡ below result.1 (expression_node_view top.now) }
    ensures rest { steps_in (expression_node_view result.0.now) + result.1
        ≡ steps_in (expression_node_view top.now) }
    ensures limit { result.1 ≤ limit }
    ensures exact { limit ≤ steps_in (expression_node_view top.now) → result.1 ≡ limit }
    ensures smaller { size-Expression result.0.now.node.value + result.1
        ≤ size-Expression top.now.node.value }
{
    let mut bottom = top;
    'steps: for steps in 0..limit {
        let Some(left) = left(bottom) else {
            return (bottom, steps);
        };
        bottom = left;
    }
    (bottom, limit)
}

/// Writes what is leftmost in an expression, and what follows it.
#[cycle(expressions)]
pub fn pack_leftmost(top: &ExpressionNode, out: &mut Vec<u8>) -> Result<(), AllocError>
    ensures { OnOk result (out.new.items
        ≡ out.old.items ++ leftmost (expression_view top.now.node.value)) }
{
    let (bottom, steps) = descend(top, usize::MAX);
    pack_first(bottom.node(), out)?;
    pack_above(top, steps, out)
}

/// Writes what follows what is some steps down, which is at the end already. It calls itself for
/// the lower half of the steps, so no more calls are open than their number has binary digits.
#[cycle(expressions)]
#[tactic(auto, using(wgsl_tree_expression::proofs::Chains::half_some))]
fn pack_above(top: &ExpressionNode, steps: usize, out: &mut Vec<u8>) -> Result<(), AllocError>
    requires { steps ≤ steps_in (expression_node_view top.now) }
    ensures { OnOk result ((done : List ℕ) → out.old.items
        ≡ done ++ leftmost (expression_in (below steps (expression_node_view top.now)))
        → out.new.items ≡ done ++ leftmost (expression_view top.now.node.value)) }
{
    let mut left = steps;
    'halves: while left > 1 {
        let (middle, upper) = descend(top, left / 2);
        pack_above(middle, left - upper, out)?;
        left = upper;
    }
    if left == 0 {
        return Ok(());
    }
    pack_after(top.node(), out)
}
