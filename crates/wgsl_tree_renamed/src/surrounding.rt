//! What is around the left side of an expression.

ghost use Rattle.std.specs.Prelude.{◌≡◌, IfOk};
ghost use Rattle.wgsl_tree_expression.specs.View.{expression_node_view, expression_view};
ghost use Rattle.wgsl_tree_renamed.specs.Lefts.{all_around, around};

use std::alloc::{AllocError, Global};
use wgsl_span::{Span, Spanned};
use wgsl_tree_expression::{
    BinaryExpression, Expression, ExpressionNode, Ident, IndexingExpression,
    NamedComponentExpression,
};
use wgsl_tree_words::BinaryOperator;

/// An expression without what is on its left side.
#[derive(Drop)]
pub(crate) enum Surrounding {
    Component(Ident),
    Index(ExpressionNode),
    Operation(BinaryOperator, ExpressionNode),
}

impl Surrounding {
    /// Returns the expression with this on its left side.
    fn around(self, left: ExpressionNode) -> Expression
        ensures { expression_view result ≡ around self (expression_node_view left) }
    {
        match self {
            Surrounding::Component(component) => {
                Expression::NamedComponent(NamedComponentExpression {
                    base: left,
                    component,
                })
            }
            Surrounding::Index(index) => {
                Expression::Indexing(IndexingExpression { base: left, index })
            }
            Surrounding::Operation(operator, right) => Expression::Binary(BinaryExpression {
                operator,
                left,
                right,
            }),
        }
    }
}

/// The expression with this innermost, made from the inside out.
pub(crate) fn put_around(
    above: Vec<(Span, Surrounding)>,
    innermost: ExpressionNode,
    alloc: Global,
) -> Result<ExpressionNode, AllocError>
    ensures { IfOk result (λ node. expression_node_view node
        ≡ all_around above.items (expression_node_view innermost)) }
{
    let mut above = above;
    let mut node = innermost;
    'outward: while let Some((span, surrounding)) = above.pop() {
        node = Spanned::new(alloc, surrounding.around(node), span)?;
    }
    Ok(node)
}
