//! Statements in braces.

ghost use Rattle.std.specs.Prelude.{◌≡◌, [], Some};
ghost use Rattle.wgsl_tree_statement.specs.View.{compound_statement_view};
ghost use Rattle.wgsl_model.specs.Trees.Statements.{compound_statement, no_statements};
ghost use Rattle.wgsl_model.specs.Printed.Statements.{print_compound, print_opened};
ghost use Rattle.wgsl_writer.specs.Writing.{WritesInto};

use crate::statement::{StatementNode, write_statement};
use std::alloc::Global;
use std::fmt;
use wgsl_tree_attribute::Attributes;
use wgsl_tree_simple::{write_gap, write_open};
use wgsl_writer::Indented;

/// A compound statement: attributes, and statements in braces.
#[cycle(statement)]
#[derive(Debug, Drop)]
pub struct CompoundStatement {
    pub attributes: Attributes,
    pub statements: Vec<StatementNode>,
}

impl CompoundStatement {
    /// Creates the block without attributes and statements.
    pub fn new(alloc: Global) -> Self
        ensures { compound_statement_view result ≡ compound_statement [] no_statements }
    {
        CompoundStatement {
            attributes: Vec::new(alloc),
            statements: Vec::new(alloc),
        }
    }
}

impl fmt::Display for CompoundStatement {
    ghost output = { λ block. Some (print_compound (compound_statement_view block)) };

    fn fmt<W: fmt::Write>(&self, f: &mut fmt::Formatter<W>) -> fmt::Result {
        let mut out = Indented::new(f);
        let outcome = write_compound(self, &mut out);
        out.into_inner();
        outcome
    }
}

/// Writes a compound statement.
#[cycle(printing)]
pub fn write_compound<W: fmt::Write>(
    block: &CompoundStatement,
    out: &mut Indented<'_, W>,
) -> fmt::Result
    ensures { WritesInto W.write_str_gives out.old result
        (print_compound (compound_statement_view block.now)) out.new }
{
    write_opened(block, out)?;
    out.write_piece("}")
}

/// Writes a block up to its closing brace: each statement that is not empty on a line of its own.
#[cycle(printing)]
pub fn write_opened<W: fmt::Write>(
    block: &CompoundStatement,
    out: &mut Indented<'_, W>,
) -> fmt::Result
    ensures { WritesInto W.write_str_gives out.old result
        (print_opened (compound_statement_view block.now)) out.new }
{
    write_open(&block.attributes, out)?;
    out.indent()?;
    let mut first = true;
    'statements: for statement in &block.statements {
        if statement.node().is_void() {
            continue;
        }
        write_gap(first, out)?;
        write_statement(statement.node(), out)?;
        first = false;
    }
    out.unindent();
    out.write_line_end()
}
