//! What ends a loop after a turn.
#![tactic(auto, using(std::proofs::lemmas::List::append_assoc))]

ghost use Rattle.std.specs.Prelude.{Some};
ghost use Rattle.wgsl_tree_simple.specs.View.{break_if_view};
ghost use Rattle.wgsl_model.specs.Printed.Declarations.{print_attributed, print_break_if};

use crate::attributes::write_attributes;
use std::fmt;
use std::fmt::Write;
use wgsl_tree_attribute::Attributes;
use wgsl_tree_expression::ExpressionNode;

/// A `break if` statement, `break if expression;`, the last of a `continuing` block.
#[derive(PartialEq, Debug, Drop)]
pub struct BreakIfStatement {
    pub attributes: Attributes,
    pub expression: ExpressionNode,
}

impl fmt::Display for BreakIfStatement {
    ghost output = { λ statement. Some (print_attributed print_break_if (break_if_view statement)) };

    fn fmt<W: fmt::Write>(&self, f: &mut fmt::Formatter<W>) -> fmt::Result {
        write_attributes(&self.attributes, f)?;
        let expression = &self.expression;
        write!(f, "break if {expression};")
    }
}
