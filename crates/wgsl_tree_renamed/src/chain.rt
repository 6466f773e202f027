//! Expressions, with a loop for the operands, components and indices on their left sides.

ghost use Rattle.std.specs.Prelude.{◌≡◌, IfOk};
ghost use Rattle.wgsl_model_names.specs.Renamed.{renamed_node};
ghost use Rattle.wgsl_tree_expression.specs.View.{expression_node_view};
ghost use Rattle.wgsl_tree_renamed.specs.NewNames.{renaming_by};

use crate::expression::{Outermost, renamed_outermost};
use crate::new_names::NewNames;
use crate::surrounding::put_around;
use std::alloc::{AllocError, Global};
use wgsl_span::Spanned;
use wgsl_tree_expression::ExpressionNode;

/// A copy of an expression. What is around its left side is copied first, from the outside in.
#[cycle(expressions)]
pub(crate) fn renamed_node(
    top: &ExpressionNode,
    names: &NewNames,
    alloc: Global,
) -> Result<ExpressionNode, AllocError>
    ensures { IfOk result (λ copy. expression_node_view copy
        ≡ renamed_node (renaming_by names.now) (expression_node_view top.now)) }
{
    let mut above = Vec::new(alloc);
    let mut node = top;
    'chain: loop {
        match renamed_outermost(node.node(), names, alloc)? {
            Outermost::Whole(expression) => {
                let innermost = Spanned::new(alloc, expression, node.span())?;
                return put_around(above, innermost, alloc);
            }
            Outermost::Around(surrounding, left) => {
                above.push((node.span(), surrounding))?;
                node = left;
            }
        }
    }
}
