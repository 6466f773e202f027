//! What a function returns.
#![tactic(auto, using(std::proofs::lemmas::List::append_assoc))]

ghost use Rattle.std.specs.Prelude.{◌≡◌, IfOk, Some};
ghost use Rattle.wgsl_tree_simple.specs.View.{return_view};
ghost use Rattle.wgsl_model.specs.Trees.Attributed.{without_attributes};
ghost use Rattle.wgsl_model.specs.Trees.Expressions.{expression_node};
ghost use Rattle.wgsl_model.specs.Trees.WithoutSpans.{no_span};
ghost use Rattle.wgsl_tree_expression.specs.View.{expression_view, expression_node_view};
ghost use Rattle.wgsl_model.specs.Printed.Declarations.{print_attributed, print_return, unended_return};

use crate::attributes::write_attributes;
use crate::unended::Unended;
use std::alloc::{AllocError, Global};
use std::fmt;
use std::fmt::Write;
use wgsl_span::Spanned;
use wgsl_tree_attribute::Attributes;
use wgsl_tree_expression::{Expression, ExpressionNode};

/// A `return` statement: `return;` or `return expression;`.
#[derive(PartialEq, Debug, Drop)]
pub struct ReturnStatement {
    pub attributes: Attributes,
    pub expression: Option<ExpressionNode>,
}

impl ReturnStatement {
    /// Creates a statement that returns the expression, whose span starts and ends at 0.
    pub fn from_expression(alloc: Global, expression: Expression) -> Result<Self, AllocError>
        ensures { IfOk result (λ made. return_view made ≡ without_attributes
            (record { expression = Some (expression_node (expression_view expression) no_span) })) }
    {
        let node = Spanned::with_default_span(alloc, expression)?;
        Ok(ReturnStatement::from_node(alloc, node))
    }

    /// Creates a statement that returns the expression.
    pub fn from_node(alloc: Global, expression: ExpressionNode) -> Self
        ensures { return_view result
            ≡ without_attributes (record { expression = Some (expression_node_view expression) }) }
    {
        ReturnStatement {
            attributes: Vec::new(alloc),
            expression: Some(expression),
        }
    }
}

impl fmt::Display for ReturnStatement {
    ghost output = { λ statement. Some (print_attributed print_return (return_view statement)) };

    fn fmt<W: fmt::Write>(&self, f: &mut fmt::Formatter<W>) -> fmt::Result {
        write!(f, "{};", Unended(self))
    }
}

impl fmt::Display for Unended<'_, ReturnStatement> {
    ghost output = { λ statement. Some (print_attributed unended_return (return_view statement.0.now)) };

    fn fmt<W: fmt::Write>(&self, f: &mut fmt::Formatter<W>) -> fmt::Result {
        write_attributes(&self.0.attributes, f)?;
        match &self.0.expression {
            None => f.write_str("return"),
            Some(expression) => write!(f, "return {expression}"),
        }
    }
}
