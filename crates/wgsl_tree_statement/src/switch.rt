//! `switch` statements and their clauses.

ghost use Rattle.std.specs.Prelude.{Some};
ghost use Rattle.wgsl_tree_statement.specs.View.{switch_statement_view, switch_clause_view};
ghost use Rattle.wgsl_model.specs.Printed.Declarations.{print_attributed};
ghost use Rattle.wgsl_model.specs.Printed.Statements.{print_switch, print_switch_clause};
ghost use Rattle.wgsl_writer.specs.Writing.{WritesInto};

use crate::compound::{CompoundStatement, write_compound};
use std::fmt;
use wgsl_tree_attribute::Attributes;
use wgsl_tree_expression::ExpressionNode;
use wgsl_tree_simple::{
    CaseSelector, write_attribute_line, write_case, write_gap, write_head, write_open,
};
use wgsl_writer::Indented;

/// A `switch` statement.
#[cycle(statement)]
#[derive(Debug, Drop)]
pub struct SwitchStatement {
    pub attributes: Attributes,
    pub expression: ExpressionNode,
    pub body_attributes: Attributes,
    pub clauses: Vec<SwitchClause>,
}

impl SwitchStatement {}

impl fmt::Display for SwitchStatement {
    ghost output = { λ statement. Some (print_attributed print_switch (switch_statement_view statement)) };

    fn fmt<W: fmt::Write>(&self, f: &mut fmt::Formatter<W>) -> fmt::Result {
        let mut out = Indented::new(f);
        let outcome = write_switch(self, &mut out);
        out.into_inner();
        outcome
    }
}

/// A clause of a `switch` statement.
#[cycle(statement)]
#[derive(Debug, Drop)]
pub struct SwitchClause {
    pub attributes: Attributes,
    pub case_selectors: Vec<CaseSelector>,
    pub body: CompoundStatement,
}

impl fmt::Display for SwitchClause {
    ghost output = { λ clause. Some (print_switch_clause (switch_clause_view clause)) };

    fn fmt<W: fmt::Write>(&self, f: &mut fmt::Formatter<W>) -> fmt::Result {
        let mut out = Indented::new(f);
        let outcome = write_switch_clause(self, &mut out);
        out.into_inner();
        outcome
    }
}

/// Writes a `switch` statement.
#[cycle(printing)]
pub fn write_switch<W: fmt::Write>(
    statement: &SwitchStatement,
    out: &mut Indented<'_, W>,
) -> fmt::Result
    ensures { WritesInto W.write_str_gives out.old result
        (print_attributed print_switch (switch_statement_view statement.now)) out.new }
{
    write_attribute_line(&statement.attributes, out)?;
    write_head("switch ", &statement.expression, out)?;
    write_open(&statement.body_attributes, out)?;
    out.indent()?;
    let mut first = true;
    'clauses: for clause in &statement.clauses {
        write_gap(first, out)?;
        write_switch_clause(clause, out)?;
        first = false;
    }
    out.unindent();
    out.write_line_end()?;
    out.write_piece("}")
}

/// Writes a clause of a `switch` statement.
#[cycle(printing)]
pub fn write_switch_clause<W: fmt::Write>(
    clause: &SwitchClause,
    out: &mut Indented<'_, W>,
) -> fmt::Result
    ensures { WritesInto W.write_str_gives out.old result
        (print_switch_clause (switch_clause_view clause.now)) out.new }
{
    write_attribute_line(&clause.attributes, out)?;
    write_case(&clause.case_selectors, out)?;
    write_compound(&clause.body, out)
}
