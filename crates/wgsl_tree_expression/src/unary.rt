//! Operators before one operand.

ghost use Rattle.std.specs.Prelude.{◌≡◌, IfOk, Some};
ghost use Rattle.wgsl_tree_expression.specs.View.{unary_expression_view};
ghost use Rattle.wgsl_model.specs.Printed.Expressions.{print_expression};
ghost use Rattle.std.specs.Cmp.{on_per};
ghost use Rattle.wgsl_tree_code.specs.Same.{same};
ghost use Rattle.wgsl_tree_code.specs.Laws.{same_partial};
ghost use Rattle.wgsl_tree_code.specs.ExpressionNodes.{expression_code};

use crate::chain::clone_node;
use crate::expression::ExpressionNode;
use std::alloc::{AllocError, Global};
use std::fmt;
use std::fmt::Write;
use wgsl_span::CloneWith;
use wgsl_tree_words::UnaryOperator;

/// An operator before its operand, as `-operand`.
#[cycle(expression)]
#[derive(Debug, Drop)]
pub struct UnaryExpression {
    pub operator: UnaryOperator,
    pub operand: ExpressionNode,
}

impl UnaryExpression {
    /// Returns a copy, unless allocation fails.
    pub fn clone(&self, alloc: Global) -> Result<Self, AllocError>
        ensures { IfOk result (λ copy.
            unary_expression_view copy ≡ unary_expression_view self.now) }
    {
        self.clone_with(alloc)
    }
}

impl CloneWith for UnaryExpression {
    ghost copies = { λ original copy. unary_expression_view copy ≡ unary_expression_view original };

    #[cycle(clone)]
    fn clone_with(&self, alloc: Global) -> Result<Self, AllocError> {
        Ok(UnaryExpression {
            operator: self.operator,
            operand: clone_node(&self.operand, alloc)?,
        })
    }
}

impl PartialEq for UnaryExpression {
    ghost eq = { λ a b. same (expression_code (unary_expression_view a)) (expression_code (unary_expression_view b)) };

    ghost laws = { on_per (λ e. expression_code (unary_expression_view e)) same_partial };

    #[cycle(equal)]
    fn eq(&self, other: &UnaryExpression) -> bool {
        self.operator == other.operator && *self.operand.node() == *other.operand.node()
    }
}

impl fmt::Display for UnaryExpression {
    ghost output = { λ e. Some (print_expression (unary_expression_view e)) };

    #[cycle(display)]
    fn fmt<W: fmt::Write>(&self, f: &mut fmt::Formatter<W>) -> fmt::Result {
        let operator = self.operator;
        let operand = &self.operand;
        if self.operand.node().fuses_with(operator) {
            write!(f, "{operator} {operand}")
        } else {
            write!(f, "{operator}{operand}")
        }
    }
}
