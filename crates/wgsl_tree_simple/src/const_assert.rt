//! What has to hold when a module is made.
#![tactic(auto, using(std::proofs::lemmas::List::append_assoc))]

ghost use Rattle.std.specs.Prelude.{◌≡◌, IfOk, Some};
ghost use Rattle.wgsl_tree_simple.specs.View.{assert_view};
ghost use Rattle.wgsl_model.specs.Trees.Attributed.{without_attributes};
ghost use Rattle.wgsl_model.specs.Trees.Expressions.{expression_node};
ghost use Rattle.wgsl_model.specs.Trees.WithoutSpans.{no_span};
ghost use Rattle.wgsl_tree_expression.specs.View.{expression_view};
ghost use Rattle.wgsl_model.specs.Printed.Declarations.{print_attributed, print_assert, unended_assert};

use crate::attributes::write_attributes;
use crate::unended::Unended;
use std::alloc::{AllocError, Global};
use std::fmt;
use std::fmt::Write;
use wgsl_span::Spanned;
use wgsl_tree_attribute::Attributes;
use wgsl_tree_expression::{Expression, ExpressionNode};

/// An assertion, as `const_assert expression;`.
#[derive(PartialEq, Debug, Drop)]
pub struct ConstAssert {
    pub attributes: Attributes,
    pub expression: ExpressionNode,
}

/// An assertion as a statement.
pub type ConstAssertStatement = ConstAssert;

impl ConstAssert {
    /// Creates the assertion of an expression, whose span starts and ends at 0.
    pub fn new(alloc: Global, expression: Expression) -> Result<Self, AllocError>
        ensures { IfOk result (λ made. assert_view made ≡ without_attributes
            (record { expression = expression_node (expression_view expression) no_span })) }
    {
        Ok(ConstAssert {
            attributes: Vec::new(alloc),
            expression: Spanned::with_default_span(alloc, expression)?,
        })
    }
}

impl fmt::Display for ConstAssert {
    ghost output = { λ statement. Some (print_attributed print_assert (assert_view statement)) };

    fn fmt<W: fmt::Write>(&self, f: &mut fmt::Formatter<W>) -> fmt::Result {
        write!(f, "{};", Unended(self))
    }
}

impl fmt::Display for Unended<'_, ConstAssert> {
    ghost output = { λ statement. Some (print_attributed unended_assert (assert_view statement.0.now)) };

    fn fmt<W: fmt::Write>(&self, f: &mut fmt::Formatter<W>) -> fmt::Result {
        write_attributes(&self.0.attributes, f)?;
        let expression = &self.0.expression;
        write!(f, "const_assert {expression}")
    }
}
