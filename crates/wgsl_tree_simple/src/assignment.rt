//! Assignments.
#![tactic(auto, using(std::proofs::lemmas::List::append_assoc))]

ghost use Rattle.std.specs.Prelude.{Some};
ghost use Rattle.wgsl_tree_simple.specs.View.{assignment_view};
ghost use Rattle.wgsl_model.specs.Printed.Declarations.{print_attributed, print_assignment, unended_assignment};

use crate::attributes::write_attributes;
use crate::unended::Unended;
use std::fmt;
use std::fmt::Write;
use wgsl_tree_attribute::Attributes;
use wgsl_tree_expression::ExpressionNode;
use wgsl_tree_words::AssignmentOperator;

/// An assignment, as `lhs += rhs;`.
#[derive(PartialEq, Debug, Drop)]
pub struct AssignmentStatement {
    pub attributes: Attributes,
    pub operator: AssignmentOperator,
    pub lhs: ExpressionNode,
    pub rhs: ExpressionNode,
}

impl fmt::Display for AssignmentStatement {
    ghost output = { λ statement. Some (print_attributed print_assignment (assignment_view statement)) };

    fn fmt<W: fmt::Write>(&self, f: &mut fmt::Formatter<W>) -> fmt::Result {
        write!(f, "{};", Unended(self))
    }
}

impl fmt::Display for Unended<'_, AssignmentStatement> {
    ghost output = { λ statement. Some (print_attributed unended_assignment (assignment_view statement.0.now)) };

    fn fmt<W: fmt::Write>(&self, f: &mut fmt::Formatter<W>) -> fmt::Result {
        write_attributes(&self.0.attributes, f)?;
        let operator = self.0.operator;
        let lhs = &self.0.lhs;
        let rhs = &self.0.rhs;
        write!(f, "{lhs} {operator} {rhs}")
    }
}
