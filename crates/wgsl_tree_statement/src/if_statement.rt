//! `if` statements.

ghost use Rattle.std.specs.Prelude.{Some};
ghost use Rattle.wgsl_tree_statement.specs.View.{if_statement_view, if_clause_view};
ghost use Rattle.wgsl_model.specs.Printed.Declarations.{print_attributed};
ghost use Rattle.wgsl_model.specs.Printed.Statements.{print_if, print_if_clause};
ghost use Rattle.wgsl_writer.specs.Writing.{WritesInto};

use crate::compound::{CompoundStatement, write_compound};
use crate::else_clause::{ElseClause, ElseIfClause, write_else_clause, write_else_if_clause};
use std::fmt;
use wgsl_tree_attribute::Attributes;
use wgsl_tree_expression::ExpressionNode;
use wgsl_tree_simple::{write_attribute_line, write_head};
use wgsl_writer::Indented;

/// An `if` statement.
#[cycle(statement)]
#[derive(Debug, Drop)]
pub struct IfStatement {
    pub attributes: Attributes,
    pub if_clause: IfClause,
    pub else_if_clauses: Vec<ElseIfClause>,
    pub else_clause: Option<ElseClause>,
}

impl IfStatement {}

impl fmt::Display for IfStatement {
    ghost output = { λ statement. Some (print_attributed print_if (if_statement_view statement)) };

    fn fmt<W: fmt::Write>(&self, f: &mut fmt::Formatter<W>) -> fmt::Result {
        let mut out = Indented::new(f);
        let outcome = write_if(self, &mut out);
        out.into_inner();
        outcome
    }
}

/// The first clause of an `if` statement.
#[cycle(statement)]
#[derive(Debug, Drop)]
pub struct IfClause {
    pub expression: ExpressionNode,
    pub body: CompoundStatement,
}

impl fmt::Display for IfClause {
    ghost output = { λ clause. Some (print_if_clause (if_clause_view clause)) };

    fn fmt<W: fmt::Write>(&self, f: &mut fmt::Formatter<W>) -> fmt::Result {
        let mut out = Indented::new(f);
        let outcome = write_if_clause(self, &mut out);
        out.into_inner();
        outcome
    }
}

/// Writes an `if` statement.
#[cycle(printing)]
pub fn write_if<W: fmt::Write>(statement: &IfStatement, out: &mut Indented<'_, W>) -> fmt::Result
    ensures { WritesInto W.write_str_gives out.old result
        (print_attributed print_if (if_statement_view statement.now)) out.new }
{
    write_attribute_line(&statement.attributes, out)?;
    write_if_clause(&statement.if_clause, out)?;
    'clauses: for clause in &statement.else_if_clauses {
        out.write_line_end()?;
        write_else_if_clause(clause, out)?;
    }
    match &statement.else_clause {
        None => Ok(()),
        Some(clause) => {
            out.write_line_end()?;
            write_else_clause(clause, out)
        }
    }
}

/// Writes the first clause of an `if` statement.
#[cycle(printing)]
pub fn write_if_clause<W: fmt::Write>(clause: &IfClause, out: &mut Indented<'_, W>) -> fmt::Result
    ensures { WritesInto W.write_str_gives out.old result
        (print_if_clause (if_clause_view clause.now)) out.new }
{
    write_head("if ", &clause.expression, out)?;
    write_compound(&clause.body, out)
}
