//! `for` statements.

ghost use Rattle.std.specs.Prelude.{Some};
ghost use Rattle.std.specs.Option.{option_map};
ghost use Rattle.wgsl_tree_statement.specs.View.{statement_node_view, for_statement_view};
ghost use Rattle.wgsl_model.specs.Printed.Declarations.{print_attributed};
ghost use Rattle.wgsl_model.specs.Printed.Statements.{print_for, unended_part};
ghost use Rattle.wgsl_model.specs.Trees.Statements.{maybe_statement};
ghost use Rattle.wgsl_writer.specs.Writing.{WritesInto};

use crate::compound::{CompoundStatement, write_compound};
use crate::statement::{StatementNode, write_unended};
use std::fmt;
use wgsl_tree_attribute::Attributes;
use wgsl_tree_expression::ExpressionNode;
use wgsl_tree_simple::{write_condition, write_start};
use wgsl_writer::Indented;

/// A `for` statement.
#[cycle(statement)]
#[derive(Debug, Drop)]
pub struct ForStatement {
    pub attributes: Attributes,
    pub initializer: Option<StatementNode>,
    pub condition: Option<ExpressionNode>,
    pub update: Option<StatementNode>,
    pub body: CompoundStatement,
}

impl fmt::Display for ForStatement {
    ghost output = { λ statement. Some (print_attributed print_for (for_statement_view statement)) };

    fn fmt<W: fmt::Write>(&self, f: &mut fmt::Formatter<W>) -> fmt::Result {
        let mut out = Indented::new(f);
        let outcome = write_for(self, &mut out);
        out.into_inner();
        outcome
    }
}

/// Writes a `for` statement.
#[cycle(printing)]
pub fn write_for<W: fmt::Write>(statement: &ForStatement, out: &mut Indented<'_, W>) -> fmt::Result
    ensures { WritesInto W.write_str_gives out.old result
        (print_attributed print_for (for_statement_view statement.now)) out.new }
{
    write_start(&statement.attributes, "for (", out)?;
    write_part(&statement.initializer, out)?;
    write_condition(&statement.condition, out)?;
    write_part(&statement.update, out)?;
    out.write_piece(") ")?;
    write_compound(&statement.body, out)
}

/// Writes a statement in the header of a `for`, if there is one, without the `;` that ends it.
#[cycle(printing)]
fn write_part<W: fmt::Write>(part: &Option<StatementNode>, out: &mut Indented<'_, W>) -> fmt::Result
    ensures { WritesInto W.write_str_gives out.old result
        (unended_part (maybe_statement (option_map statement_node_view part.now))) out.new }
{
    match part {
        None => Ok(()),
        Some(part) => write_unended(part.node(), out),
    }
}
