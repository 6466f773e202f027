//! Expressions and types as parts of generic lists.

ghost use Rattle.wgsl_model.specs.Trees.Expressions as plain;
ghost use Rattle.wgsl_model_packed.specs.Expressions.{packed_expression, packed_expression_node, packed_type};
ghost use Rattle.wgsl_tree_expression.specs.View.{expression_node_view, expression_view, type_expression_view};

use crate::expression::{pack_expression, pack_expression_node, pack_type};
use crate::traits::Pack;
use std::alloc::AllocError;
use wgsl_tree_expression::{Expression, ExpressionNode, TypeExpression};

impl Pack for Expression {
    ghost Plain = { plain.Expression };

    ghost view = { expression_view };

    ghost packed = { packed_expression };

    fn pack(&self, out: &mut Vec<u8>) -> Result<(), AllocError> {
        pack_expression(self, out)
    }
}

impl Pack for ExpressionNode {
    ghost Plain = { plain.ExpressionNode };

    ghost view = { expression_node_view };

    ghost packed = { packed_expression_node };

    fn pack(&self, out: &mut Vec<u8>) -> Result<(), AllocError> {
        pack_expression_node(self, out)
    }
}

impl Pack for TypeExpression {
    ghost Plain = { plain.TypeExpression };

    ghost view = { type_expression_view };

    ghost packed = { packed_type };

    fn pack(&self, out: &mut Vec<u8>) -> Result<(), AllocError> {
        pack_type(self, out)
    }
}
