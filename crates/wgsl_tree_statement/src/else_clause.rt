//! The clauses of an `if` after its first.

ghost use Rattle.std.specs.Prelude.{Some};
ghost use Rattle.wgsl_tree_statement.specs.View.{else_if_clause_view, else_clause_view};
ghost use Rattle.wgsl_model.specs.Printed.Statements.{print_else_if_clause, print_else_clause};
ghost use Rattle.wgsl_writer.specs.Writing.{WritesInto};

use crate::compound::{CompoundStatement, write_compound};
use std::fmt;
use wgsl_tree_attribute::Attributes;
use wgsl_tree_expression::ExpressionNode;
use wgsl_tree_simple::{write_attribute_line, write_head, write_start};
use wgsl_writer::Indented;

/// An `else` clause of an `if` statement.
#[cycle(statement)]
#[derive(Debug, Drop)]
pub struct ElseClause {
    pub attributes: Attributes,
    pub body: CompoundStatement,
}

impl fmt::Display for ElseClause {
    ghost output = { λ clause. Some (print_else_clause (else_clause_view clause)) };

    fn fmt<W: fmt::Write>(&self, f: &mut fmt::Formatter<W>) -> fmt::Result {
        let mut out = Indented::new(f);
        let outcome = write_else_clause(self, &mut out);
        out.into_inner();
        outcome
    }
}

/// An `else if` clause of an `if` statement.
#[cycle(statement)]
#[derive(Debug, Drop)]
pub struct ElseIfClause {
    pub attributes: Attributes,
    pub expression: ExpressionNode,
    pub body: CompoundStatement,
}

impl fmt::Display for ElseIfClause {
    ghost output = { λ clause. Some (print_else_if_clause (else_if_clause_view clause)) };

    fn fmt<W: fmt::Write>(&self, f: &mut fmt::Formatter<W>) -> fmt::Result {
        let mut out = Indented::new(f);
        let outcome = write_else_if_clause(self, &mut out);
        out.into_inner();
        outcome
    }
}

/// Writes an `else` clause.
#[cycle(printing)]
pub fn write_else_clause<W: fmt::Write>(
    clause: &ElseClause,
    out: &mut Indented<'_, W>,
) -> fmt::Result
    ensures { WritesInto W.write_str_gives out.old result
        (print_else_clause (else_clause_view clause.now)) out.new }
{
    write_start(&clause.attributes, "else ", out)?;
    write_compound(&clause.body, out)
}

/// Writes an `else if` clause.
#[cycle(printing)]
pub fn write_else_if_clause<W: fmt::Write>(
    clause: &ElseIfClause,
    out: &mut Indented<'_, W>,
) -> fmt::Result
    ensures { WritesInto W.write_str_gives out.old result
        (print_else_if_clause (else_if_clause_view clause.now)) out.new }
{
    write_attribute_line(&clause.attributes, out)?;
    write_head("else if ", &clause.expression, out)?;
    write_compound(&clause.body, out)
}
