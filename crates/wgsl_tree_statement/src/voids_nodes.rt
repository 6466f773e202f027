//! Written by tools/tables/tree_voids.py from crates/wgsl_model/nodes: statements without the
//! empty ones in their lists.

ghost use Rattle.std.specs.Option.{option_map};
ghost use Rattle.std.specs.Prelude.{◌≡◌, map};
ghost use Rattle.wgsl_model.specs.Trees.EmptyItems.{full_attributed, full_clauses, full_compound};
ghost use Rattle.wgsl_model.specs.Trees.EmptyItems.{full_continuing, full_else, full_else_clause};
ghost use Rattle.wgsl_model.specs.Trees.EmptyItems.{full_else_if_clause, full_else_ifs, full_if};
ghost use Rattle.wgsl_model.specs.Trees.EmptyItems.{full_if_clause, full_maybe_continuing};
ghost use Rattle.wgsl_model.specs.Trees.EmptyItems.{full_part, full_statement, full_statements};
ghost use Rattle.wgsl_model.specs.Trees.EmptyItems.{full_switch, full_switch_clause, without_empty};
ghost use Rattle.wgsl_model.specs.Trees.Statements.{changed_for, changed_loop, changed_while};
ghost use Rattle.wgsl_model.specs.Trees.Statements.{clauses_of, continuing_of, else_ifs_of};
ghost use Rattle.wgsl_model.specs.Trees.Statements.{else_of, maybe_statement};
ghost use Rattle.wgsl_tree_statement.specs.View.{compound_statement_view};
ghost use Rattle.wgsl_tree_statement.specs.View.{continuing_statement_view, else_clause_view};
ghost use Rattle.wgsl_tree_statement.specs.View.{else_if_clause_view, for_statement_view};
ghost use Rattle.wgsl_tree_statement.specs.View.{if_clause_view, if_statement_view};
ghost use Rattle.wgsl_tree_statement.specs.View.{loop_statement_view, statement_node_view};
ghost use Rattle.wgsl_tree_statement.specs.View.{statement_nodes_view, statement_view};
ghost use Rattle.wgsl_tree_statement.specs.View.{switch_clause_view, switch_statement_view};
ghost use Rattle.wgsl_tree_statement.specs.View.{while_statement_view};

use crate::compound::CompoundStatement;
use crate::continuing::ContinuingStatement;
use crate::else_clause::{ElseClause, ElseIfClause};
use crate::for_statement::ForStatement;
use crate::if_statement::{IfClause, IfStatement};
use crate::loop_statement::LoopStatement;
use crate::statement::{Statement, StatementNode};
use crate::switch::{SwitchClause, SwitchStatement};
use crate::while_statement::WhileStatement;

impl Statement {
    /// Removes the empty statements from every list of statements in it.
    #[cycle(remove)]
    pub fn remove_voids(&mut self)
        ensures { statement_view self.new
            ≡ full_statement (statement_view self.old) }
    {
        match self {
            Statement::Compound(inner) => inner.remove_voids(),
            Statement::If(inner) => inner.remove_voids(),
            Statement::Switch(inner) => inner.remove_voids(),
            Statement::Loop(inner) => inner.remove_voids(),
            Statement::For(inner) => inner.remove_voids(),
            Statement::While(inner) => inner.remove_voids(),
            Statement::Void
            | Statement::Assignment(_)
            | Statement::Increment(_)
            | Statement::Decrement(_)
            | Statement::Break(_)
            | Statement::Continue(_)
            | Statement::Return(_)
            | Statement::Discard(_)
            | Statement::FunctionCall(_)
            | Statement::ConstAssert(_)
            | Statement::Declaration(_) => {}
        }
    }
}

impl CompoundStatement {
    /// Removes the empty statements from every list of statements in it.
    #[cycle(remove)]
    pub fn remove_voids(&mut self)
        ensures { compound_statement_view self.new
            ≡ full_compound (compound_statement_view self.old) }
    {
        remove_from_statements(&mut self.statements);
    }
}

impl IfStatement {
    #[cycle(remove)]
    pub(crate) fn remove_voids(&mut self)
        ensures { if_statement_view self.new
            ≡ full_attributed full_if (if_statement_view self.old) }
    {
        self.if_clause.remove_voids();
        remove_from_else_ifs(&mut self.else_if_clauses);
        remove_from_else(&mut self.else_clause);
    }
}

impl IfClause {
    #[cycle(remove)]
    pub(crate) fn remove_voids(&mut self)
        ensures { if_clause_view self.new
            ≡ full_if_clause (if_clause_view self.old) }
    {
        self.body.remove_voids();
    }
}

impl ElseIfClause {
    #[cycle(remove)]
    pub(crate) fn remove_voids(&mut self)
        ensures { else_if_clause_view self.new
            ≡ full_else_if_clause (else_if_clause_view self.old) }
    {
        self.body.remove_voids();
    }
}

impl ElseClause {
    #[cycle(remove)]
    pub(crate) fn remove_voids(&mut self)
        ensures { else_clause_view self.new
            ≡ full_else_clause (else_clause_view self.old) }
    {
        self.body.remove_voids();
    }
}

impl SwitchStatement {
    #[cycle(remove)]
    pub(crate) fn remove_voids(&mut self)
        ensures { switch_statement_view self.new
            ≡ full_attributed full_switch (switch_statement_view self.old) }
    {
        remove_from_clauses(&mut self.clauses);
    }
}

impl SwitchClause {
    #[cycle(remove)]
    pub(crate) fn remove_voids(&mut self)
        ensures { switch_clause_view self.new
            ≡ full_switch_clause (switch_clause_view self.old) }
    {
        self.body.remove_voids();
    }
}

impl LoopStatement {
    #[cycle(remove)]
    pub(crate) fn remove_voids(&mut self)
        ensures { loop_statement_view self.new
            ≡ full_attributed (changed_loop without_empty) (loop_statement_view self.old) }
    {
        self.body.remove_voids();
        remove_from_maybe_continuing(&mut self.continuing);
    }
}

impl ForStatement {
    #[cycle(remove)]
    pub(crate) fn remove_voids(&mut self)
        ensures { for_statement_view self.new
            ≡ full_attributed (changed_for without_empty) (for_statement_view self.old) }
    {
        remove_from_part(&mut self.initializer);
        remove_from_part(&mut self.update);
        self.body.remove_voids();
    }
}

impl WhileStatement {
    #[cycle(remove)]
    pub(crate) fn remove_voids(&mut self)
        ensures { while_statement_view self.new
            ≡ full_attributed (changed_while without_empty) (while_statement_view self.old) }
    {
        self.body.remove_voids();
    }
}

impl ContinuingStatement {
    #[cycle(remove)]
    pub(crate) fn remove_voids(&mut self)
        ensures { continuing_statement_view self.new
            ≡ full_continuing (continuing_statement_view self.old) }
    {
        self.body.remove_voids();
    }
}

#[cycle(remove)]
fn remove_from_statements(part: &mut Vec<StatementNode>)
    ensures { statement_nodes_view part.new.items
        ≡ full_statements (statement_nodes_view part.old.items) }
{
    'items: for i in 0..part.len() {
        part[i].node_mut().remove_voids();
    }
    part.retain(|node| !node.node().is_void());
}

#[cycle(remove)]
fn remove_from_else_ifs(part: &mut Vec<ElseIfClause>)
    ensures { else_ifs_of (map else_if_clause_view part.new.items)
        ≡ full_else_ifs (else_ifs_of (map else_if_clause_view part.old.items)) }
{
    'items: for i in 0..part.len() {
        part[i].remove_voids();
    }
}

#[cycle(remove)]
fn remove_from_else(part: &mut Option<ElseClause>)
    ensures { else_of (option_map else_clause_view part.new)
        ≡ full_else (else_of (option_map else_clause_view part.old)) }
{
    if let Some(node) = part {
        node.remove_voids();
    }
}

#[cycle(remove)]
fn remove_from_clauses(part: &mut Vec<SwitchClause>)
    ensures { clauses_of (map switch_clause_view part.new.items)
        ≡ full_clauses (clauses_of (map switch_clause_view part.old.items)) }
{
    'items: for i in 0..part.len() {
        part[i].remove_voids();
    }
}

#[cycle(remove)]
fn remove_from_maybe_continuing(part: &mut Option<ContinuingStatement>)
    ensures { continuing_of (option_map continuing_statement_view part.new)
        ≡ full_maybe_continuing (continuing_of (option_map continuing_statement_view part.old)) }
{
    if let Some(node) = part {
        node.remove_voids();
    }
}

#[cycle(remove)]
fn remove_from_part(part: &mut Option<StatementNode>)
    ensures { maybe_statement (option_map statement_node_view part.new)
        ≡ full_part (maybe_statement (option_map statement_node_view part.old)) }
{
    if let Some(node) = part {
        node.node_mut().remove_voids();
    }
}
