//! What a loop does after each turn.

ghost use Rattle.std.specs.Prelude.{Some};
ghost use Rattle.wgsl_tree_statement.specs.View.{continuing_statement_view};
ghost use Rattle.wgsl_model.specs.Printed.Statements.{print_continuing};
ghost use Rattle.wgsl_writer.specs.Writing.{WritesInto};

use crate::compound::{CompoundStatement, write_opened};
use std::fmt;
use wgsl_tree_attribute::Attributes;
use wgsl_tree_simple::{BreakIfStatement, write_break_if, write_start};
use wgsl_writer::Indented;

/// A `continuing` statement: what a loop does after each turn.
#[cycle(statement)]
#[derive(Debug, Drop)]
pub struct ContinuingStatement {
    pub attributes: Attributes,
    pub body: CompoundStatement,
    pub break_if: Option<BreakIfStatement>,
}

impl fmt::Display for ContinuingStatement {
    ghost output = { λ statement. Some (print_continuing (continuing_statement_view statement)) };

    fn fmt<W: fmt::Write>(&self, f: &mut fmt::Formatter<W>) -> fmt::Result {
        let mut out = Indented::new(f);
        let outcome = write_continuing(self, &mut out);
        out.into_inner();
        outcome
    }
}

/// Writes a `continuing` statement.
#[cycle(printing)]
pub fn write_continuing<W: fmt::Write>(
    statement: &ContinuingStatement,
    out: &mut Indented<'_, W>,
) -> fmt::Result
    ensures { WritesInto W.write_str_gives out.old result
        (print_continuing (continuing_statement_view statement.now)) out.new }
{
    write_start(&statement.attributes, "continuing ", out)?;
    write_opened(&statement.body, out)?;
    write_break_if(&statement.break_if, out)?;
    out.write_piece("}")
}
