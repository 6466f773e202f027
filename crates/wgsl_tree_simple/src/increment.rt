//! Statements that count up or down by one.
#![tactic(auto, using(std::proofs::lemmas::List::append_assoc))]

ghost use Rattle.std.specs.Prelude.{Some};
ghost use Rattle.wgsl_tree_simple.specs.View.{increment_view, decrement_view};
ghost use Rattle.wgsl_model.specs.Printed.Declarations.{print_attributed, print_increment, print_decrement, unended_increment, unended_decrement};

use crate::attributes::write_attributes;
use crate::unended::Unended;
use std::fmt;
use std::fmt::Write;
use wgsl_tree_attribute::Attributes;
use wgsl_tree_expression::ExpressionNode;

/// An increment statement, as `expression++;`.
#[derive(PartialEq, Debug, Drop)]
pub struct IncrementStatement {
    pub attributes: Attributes,
    pub expression: ExpressionNode,
}

impl fmt::Display for IncrementStatement {
    ghost output = { λ statement. Some (print_attributed print_increment (increment_view statement)) };

    fn fmt<W: fmt::Write>(&self, f: &mut fmt::Formatter<W>) -> fmt::Result {
        write!(f, "{};", Unended(self))
    }
}

impl fmt::Display for Unended<'_, IncrementStatement> {
    ghost output = { λ statement. Some (print_attributed unended_increment (increment_view statement.0.now)) };

    fn fmt<W: fmt::Write>(&self, f: &mut fmt::Formatter<W>) -> fmt::Result {
        write_attributes(&self.0.attributes, f)?;
        let expression = &self.0.expression;
        write!(f, "{expression}++")
    }
}

/// A decrement statement, as `expression--;`.
#[derive(PartialEq, Debug, Drop)]
pub struct DecrementStatement {
    pub attributes: Attributes,
    pub expression: ExpressionNode,
}

impl fmt::Display for DecrementStatement {
    ghost output = { λ statement. Some (print_attributed print_decrement (decrement_view statement)) };

    fn fmt<W: fmt::Write>(&self, f: &mut fmt::Formatter<W>) -> fmt::Result {
        write!(f, "{};", Unended(self))
    }
}

impl fmt::Display for Unended<'_, DecrementStatement> {
    ghost output = { λ statement. Some (print_attributed unended_decrement (decrement_view statement.0.now)) };

    fn fmt<W: fmt::Write>(&self, f: &mut fmt::Formatter<W>) -> fmt::Result {
        write_attributes(&self.0.attributes, f)?;
        let expression = &self.0.expression;
        write!(f, "{expression}--")
    }
}
