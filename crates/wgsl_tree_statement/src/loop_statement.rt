//! `loop` statements.

ghost use Rattle.std.specs.Prelude.{Some};
ghost use Rattle.wgsl_tree_statement.specs.View.{loop_statement_view};
ghost use Rattle.wgsl_model.specs.Printed.Declarations.{print_attributed};
ghost use Rattle.wgsl_model.specs.Printed.Statements.{print_loop};
ghost use Rattle.wgsl_writer.specs.Writing.{WritesInto};

use crate::compound::{CompoundStatement, write_opened};
use crate::continuing::{ContinuingStatement, write_continuing};
use std::fmt;
use wgsl_tree_attribute::Attributes;
use wgsl_tree_simple::write_start;
use wgsl_writer::Indented;

/// A `loop` statement.
#[cycle(statement)]
#[derive(Debug, Drop)]
pub struct LoopStatement {
    pub attributes: Attributes,
    pub body: CompoundStatement,
    pub continuing: Option<ContinuingStatement>,
}

impl fmt::Display for LoopStatement {
    ghost output = { λ statement. Some (print_attributed print_loop (loop_statement_view statement)) };

    fn fmt<W: fmt::Write>(&self, f: &mut fmt::Formatter<W>) -> fmt::Result {
        let mut out = Indented::new(f);
        let outcome = write_loop(self, &mut out);
        out.into_inner();
        outcome
    }
}

/// Writes a `loop` statement.
#[cycle(printing)]
pub fn write_loop<W: fmt::Write>(
    statement: &LoopStatement,
    out: &mut Indented<'_, W>,
) -> fmt::Result
    ensures { WritesInto W.write_str_gives out.old result
        (print_attributed print_loop (loop_statement_view statement.now)) out.new }
{
    write_start(&statement.attributes, "loop ", out)?;
    write_opened(&statement.body, out)?;
    match &statement.continuing {
        None => out.write_piece("}"),
        Some(continuing) => {
            out.indent()?;
            out.write_piece("    ")?;
            write_continuing(continuing, out)?;
            out.unindent();
            out.write_line_end()?;
            out.write_piece("}")
        }
    }
}
