//! `while` statements.

ghost use Rattle.std.specs.Prelude.{Some};
ghost use Rattle.wgsl_tree_statement.specs.View.{while_statement_view};
ghost use Rattle.wgsl_model.specs.Printed.Declarations.{print_attributed};
ghost use Rattle.wgsl_model.specs.Printed.Statements.{print_while};
ghost use Rattle.wgsl_writer.specs.Writing.{WritesInto};

use crate::compound::{CompoundStatement, write_compound};
use std::fmt;
use wgsl_tree_attribute::Attributes;
use wgsl_tree_expression::ExpressionNode;
use wgsl_tree_simple::{write_attribute_line, write_head};
use wgsl_writer::Indented;

/// A `while` statement.
#[cycle(statement)]
#[derive(Debug, Drop)]
pub struct WhileStatement {
    pub attributes: Attributes,
    pub condition: ExpressionNode,
    pub body: CompoundStatement,
}

impl fmt::Display for WhileStatement {
    ghost output = { λ statement. Some (print_attributed print_while (while_statement_view statement)) };

    fn fmt<W: fmt::Write>(&self, f: &mut fmt::Formatter<W>) -> fmt::Result {
        let mut out = Indented::new(f);
        let outcome = write_while(self, &mut out);
        out.into_inner();
        outcome
    }
}

/// Writes a `while` statement.
#[cycle(printing)]
pub fn write_while<W: fmt::Write>(
    statement: &WhileStatement,
    out: &mut Indented<'_, W>,
) -> fmt::Result
    ensures { WritesInto W.write_str_gives out.old result
        (print_attributed print_while (while_statement_view statement.now)) out.new }
{
    write_attribute_line(&statement.attributes, out)?;
    write_head("while ", &statement.condition, out)?;
    write_compound(&statement.body, out)
}
