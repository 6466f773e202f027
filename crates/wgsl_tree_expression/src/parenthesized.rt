//! Expressions in parentheses.

ghost use Rattle.std.specs.Prelude.{◌≡◌, IfOk, Some};
ghost use Rattle.wgsl_tree_expression.specs.View.{parenthesized_expression_view};
ghost use Rattle.wgsl_model.specs.Printed.Expressions.{print_expression};
ghost use Rattle.std.specs.Cmp.{on_per};
ghost use Rattle.wgsl_tree_code.specs.Same.{same};
ghost use Rattle.wgsl_tree_code.specs.Laws.{same_partial};
ghost use Rattle.wgsl_tree_code.specs.ExpressionNodes.{expression_code};

use crate::chain::clone_node;
use crate::expression::ExpressionNode;
use std::alloc::{AllocError, Global};
use std::fmt;
use std::fmt::Write;
use wgsl_span::CloneWith;

/// An expression between parentheses.
#[cycle(expression)]
#[derive(Debug, Drop)]
pub struct ParenthesizedExpression {
    pub expression: ExpressionNode,
}

impl ParenthesizedExpression {
    /// Returns a copy, unless allocation fails.
    pub fn clone(&self, alloc: Global) -> Result<Self, AllocError>
        ensures { IfOk result (λ copy.
            parenthesized_expression_view copy ≡ parenthesized_expression_view self.now) }
    {
        self.clone_with(alloc)
    }
}

impl CloneWith for ParenthesizedExpression {
    ghost copies = { λ original copy. parenthesized_expression_view copy ≡ parenthesized_expression_view original };

    #[cycle(clone)]
    fn clone_with(&self, alloc: Global) -> Result<Self, AllocError> {
        Ok(ParenthesizedExpression {
            expression: clone_node(&self.expression, alloc)?,
        })
    }
}

impl PartialEq for ParenthesizedExpression {
    ghost eq = { λ a b. same (expression_code (parenthesized_expression_view a)) (expression_code (parenthesized_expression_view b)) };

    ghost laws = { on_per (λ e. expression_code (parenthesized_expression_view e)) same_partial };

    #[cycle(equal)]
    fn eq(&self, other: &ParenthesizedExpression) -> bool {
        *self.expression.node() == *other.expression.node()
    }
}

impl fmt::Display for ParenthesizedExpression {
    ghost output = { λ e. Some (print_expression (parenthesized_expression_view e)) };

    #[cycle(display)]
    fn fmt<W: fmt::Write>(&self, f: &mut fmt::Formatter<W>) -> fmt::Result {
        let expression = &self.expression;
        write!(f, "({expression})")
    }
}
