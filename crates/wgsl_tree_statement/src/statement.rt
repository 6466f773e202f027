//! Statements, and their prints by their variants.
#![tactic(auto, using(crate::proofs::Views::variants))]

ghost use Rattle.std.specs.Prelude.{◌≡◌, Some};
ghost use Rattle.wgsl_tree_statement.specs.View.{statement_view};
ghost use Rattle.wgsl_model.specs.Printed.Statements.{print_statement, terminator_of, unended};
ghost use Rattle.wgsl_writer.specs.Writing.{WritesInto};

use crate::compound::{CompoundStatement, write_compound};
use crate::for_statement::{ForStatement, write_for};
use crate::if_statement::{IfStatement, write_if};
use crate::loop_statement::{LoopStatement, write_loop};
use crate::switch::{SwitchStatement, write_switch};
use crate::while_statement::{WhileStatement, write_while};
use std::fmt;
use wgsl_span::Spanned;
use wgsl_tree_simple::{
    AssignmentStatement, BreakStatement, ConstAssert, ContinueStatement, Declaration,
    DecrementStatement, DiscardStatement, FunctionCallStatement, IncrementStatement,
    ReturnStatement, Unended,
};
use wgsl_writer::Indented;

/// A statement.
#[cycle(statement)]
#[derive(Debug, Drop)]
pub enum Statement {
    /// A `;` alone.
    Void,
    Compound(CompoundStatement),
    Assignment(AssignmentStatement),
    Increment(IncrementStatement),
    Decrement(DecrementStatement),
    If(IfStatement),
    Switch(SwitchStatement),
    Loop(LoopStatement),
    For(ForStatement),
    While(WhileStatement),
    Break(BreakStatement),
    Continue(ContinueStatement),
    Return(ReturnStatement),
    Discard(DiscardStatement),
    FunctionCall(FunctionCallStatement),
    ConstAssert(ConstAssert),
    Declaration(Declaration),
}

/// A statement and where it is.
pub type StatementNode = Spanned<Statement>;

impl Statement {
    /// The `;` that ends it, if one does.
    fn end(&self) -> &'static str
        ensures { result.now ≡ terminator_of (statement_view self.now) }
    {
        match self {
            Statement::Compound(_)
            | Statement::If(_)
            | Statement::Switch(_)
            | Statement::Loop(_)
            | Statement::For(_)
            | Statement::While(_) => "",
            Statement::Void
            | Statement::Assignment(_)
            | Statement::Increment(_)
            | Statement::Decrement(_)
            | Statement::Break(_)
            | Statement::Continue(_)
            | Statement::Return(_)
            | Statement::Discard(_)
            | Statement::FunctionCall(_)
            | Statement::ConstAssert(_)
            | Statement::Declaration(_) => ";",
        }
    }
}

impl fmt::Display for Statement {
    ghost output = { λ statement. Some (print_statement (statement_view statement)) };

    fn fmt<W: fmt::Write>(&self, f: &mut fmt::Formatter<W>) -> fmt::Result {
        let mut out = Indented::new(f);
        let outcome = write_statement(self, &mut out);
        out.into_inner();
        outcome
    }
}

/// Writes a statement, with the `;` that ends it if one does.
#[cycle(printing)]
pub fn write_statement<W: fmt::Write>(
    statement: &Statement,
    out: &mut Indented<'_, W>,
) -> fmt::Result
    ensures { WritesInto W.write_str_gives out.old result
        (print_statement (statement_view statement.now)) out.new }
{
    write_unended(statement, out)?;
    out.write_piece(statement.end())
}

/// Writes a statement without the `;` that ends it.
#[cycle(printing)]
pub fn write_unended<W: fmt::Write>(statement: &Statement, out: &mut Indented<'_, W>) -> fmt::Result
    ensures { WritesInto W.write_str_gives out.old result
        (unended (statement_view statement.now)) out.new }
{
    match statement {
        Statement::Void => Ok(()),
        Statement::Compound(inner) => write_compound(inner, out),
        Statement::Assignment(inner) => out.write_value(&Unended(inner)),
        Statement::Increment(inner) => out.write_value(&Unended(inner)),
        Statement::Decrement(inner) => out.write_value(&Unended(inner)),
        Statement::If(inner) => write_if(inner, out),
        Statement::Switch(inner) => write_switch(inner, out),
        Statement::Loop(inner) => write_loop(inner, out),
        Statement::For(inner) => write_for(inner, out),
        Statement::While(inner) => write_while(inner, out),
        Statement::Break(inner) => out.write_value(&Unended(inner)),
        Statement::Continue(inner) => out.write_value(&Unended(inner)),
        Statement::Return(inner) => out.write_value(&Unended(inner)),
        Statement::Discard(inner) => out.write_value(&Unended(inner)),
        Statement::FunctionCall(inner) => out.write_value(&Unended(inner)),
        Statement::ConstAssert(inner) => out.write_value(&Unended(inner)),
        Statement::Declaration(inner) => out.write_value(&Unended(inner)),
    }
}
