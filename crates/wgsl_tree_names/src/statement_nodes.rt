//! Written by tools/tables/collected_names.py from crates/wgsl_model/nodes: names of nodes.

ghost use Rattle.std.specs.Option.{option_map};
ghost use Rattle.std.specs.Prelude.{IfOk, map};
ghost use Rattle.wgsl_model.specs.Trees.Statements.{clauses_of, continuing_of, else_ifs_of};
ghost use Rattle.wgsl_model.specs.Trees.Statements.{else_of, maybe_statement};
ghost use Rattle.wgsl_model_names.specs.Names.{statement_names, compound_names, if_names};
ghost use Rattle.wgsl_model_names.specs.Names.{if_clause_names, else_if_clause_names};
ghost use Rattle.wgsl_model_names.specs.Names.{else_clause_names, switch_names};
ghost use Rattle.wgsl_model_names.specs.Names.{switch_clause_names, loop_names, continuing_names};
ghost use Rattle.wgsl_model_names.specs.Names.{for_names, while_names, statements_names};
ghost use Rattle.wgsl_model_names.specs.Names.{part_names, else_ifs_names, else_names};
ghost use Rattle.wgsl_model_names.specs.Names.{clauses_names, maybe_continuing_names};
ghost use Rattle.wgsl_tree_statement.specs.View.{compound_statement_view};
ghost use Rattle.wgsl_tree_statement.specs.View.{continuing_statement_view, else_clause_view};
ghost use Rattle.wgsl_tree_statement.specs.View.{else_if_clause_view, for_statement_view};
ghost use Rattle.wgsl_tree_statement.specs.View.{if_clause_view, if_statement_view};
ghost use Rattle.wgsl_tree_statement.specs.View.{loop_statement_view, statement_node_view};
ghost use Rattle.wgsl_tree_statement.specs.View.{statement_nodes_view, statement_view};
ghost use Rattle.wgsl_tree_statement.specs.View.{switch_clause_view, switch_statement_view};
ghost use Rattle.wgsl_tree_statement.specs.View.{while_statement_view};
ghost use Rattle.wgsl_tree_names.specs.Attributed.{attributed, statement_declared};
ghost use Rattle.wgsl_tree_names.specs.Found.{Collects};

use crate::collected::{Collected, Occurrence};
use crate::declared::put_declared;
use crate::named::Named;
use std::alloc::AllocError;
use wgsl_tree_statement::{
    CompoundStatement, ContinuingStatement, ElseClause, ElseIfClause, ForStatement, IfClause,
    IfStatement, LoopStatement, Statement, StatementNode, SwitchClause, SwitchStatement,
    WhileStatement,
};

#[cycle(statements)]
fn put_statement<'t>(node: &'t Statement, found: &mut Collected<'t>) -> Result<(), AllocError>
    ensures { IfOk result (λ _. Collects
        (statement_names (statement_view node.now))
        found.old found.new) }
{
    put_declared_statement(node, found)?;
    match node {
        Statement::Compound(inner) => put_compound(inner, found),
        Statement::Assignment(inner) => inner.put_names(found),
        Statement::Increment(inner) => inner.put_names(found),
        Statement::Decrement(inner) => inner.put_names(found),
        Statement::If(inner) => put_if(inner, found),
        Statement::Switch(inner) => put_switch(inner, found),
        Statement::Loop(inner) => put_loop(inner, found),
        Statement::For(inner) => put_for(inner, found),
        Statement::While(inner) => put_while(inner, found),
        Statement::Break(inner) => inner.attributes.put_names(found),
        Statement::Continue(inner) => inner.attributes.put_names(found),
        Statement::Return(inner) => inner.put_names(found),
        Statement::Discard(inner) => inner.attributes.put_names(found),
        Statement::FunctionCall(inner) => inner.put_names(found),
        Statement::ConstAssert(inner) => inner.put_names(found),
        Statement::Declaration(inner) => inner.put_names(found),
        Statement::Void => Ok(()),
    }
}

fn put_declared_statement<'t>(
    node: &'t Statement,
    found: &mut Collected<'t>,
) -> Result<(), AllocError>
    ensures { IfOk result (λ _. Collects
        (statement_declared (statement_view node.now))
        found.old found.new) }
{
    match node {
        Statement::Compound(inner) => put_declared(&inner.attributes, None, found),
        Statement::Assignment(inner) => put_declared(&inner.attributes, None, found),
        Statement::Increment(inner) => put_declared(&inner.attributes, None, found),
        Statement::Decrement(inner) => put_declared(&inner.attributes, None, found),
        Statement::If(inner) => put_declared(&inner.attributes, None, found),
        Statement::Switch(inner) => put_declared(&inner.attributes, None, found),
        Statement::Loop(inner) => put_declared(&inner.attributes, None, found),
        Statement::For(inner) => put_declared(&inner.attributes, None, found),
        Statement::While(inner) => put_declared(&inner.attributes, None, found),
        Statement::Break(inner) => put_declared(&inner.attributes, None, found),
        Statement::Continue(inner) => put_declared(&inner.attributes, None, found),
        Statement::Return(inner) => put_declared(&inner.attributes, None, found),
        Statement::Discard(inner) => put_declared(&inner.attributes, None, found),
        Statement::FunctionCall(inner) => put_declared(&inner.attributes, None, found),
        Statement::ConstAssert(inner) => put_declared(&inner.attributes, None, found),
        Statement::Declaration(inner) => {
            put_declared(&inner.attributes, Some(inner.ident.name()), found)
        }
        Statement::Void => Ok(()),
    }
}

#[cycle(statements)]
#[tactic(auto, using(crate::proofs::Blocks::compound_before))]
pub(crate) fn put_compound<'t>(
    node: &'t CompoundStatement,
    found: &mut Collected<'t>,
) -> Result<(), AllocError>
    ensures { IfOk result (λ _. Collects
        (compound_names (compound_statement_view node.now))
        found.old found.new) }
{
    found.put(Occurrence::ScopeEnd)?;
    put_statements(&node.statements, found)?;
    found.put(Occurrence::ScopeStart)?;
    node.attributes.put_names(found)
}

#[cycle(statements)]
fn put_if<'t>(node: &'t IfStatement, found: &mut Collected<'t>) -> Result<(), AllocError>
    ensures { IfOk result (λ _. Collects
        (attributed if_names (if_statement_view node.now))
        found.old found.new) }
{
    put_else(&node.else_clause, found)?;
    put_else_ifs(&node.else_if_clauses, found)?;
    put_if_clause(&node.if_clause, found)?;
    node.attributes.put_names(found)
}

#[cycle(statements)]
fn put_if_clause<'t>(node: &'t IfClause, found: &mut Collected<'t>) -> Result<(), AllocError>
    ensures { IfOk result (λ _. Collects
        (if_clause_names (if_clause_view node.now))
        found.old found.new) }
{
    put_compound(&node.body, found)?;
    node.expression.put_names(found)
}

#[cycle(statements)]
fn put_else_if_clause<'t>(
    node: &'t ElseIfClause,
    found: &mut Collected<'t>,
) -> Result<(), AllocError>
    ensures { IfOk result (λ _. Collects
        (else_if_clause_names (else_if_clause_view node.now))
        found.old found.new) }
{
    put_compound(&node.body, found)?;
    node.expression.put_names(found)?;
    node.attributes.put_names(found)
}

#[cycle(statements)]
fn put_else_clause<'t>(node: &'t ElseClause, found: &mut Collected<'t>) -> Result<(), AllocError>
    ensures { IfOk result (λ _. Collects
        (else_clause_names (else_clause_view node.now))
        found.old found.new) }
{
    put_compound(&node.body, found)?;
    node.attributes.put_names(found)
}

#[cycle(statements)]
#[tactic(auto, using(crate::proofs::Blocks::switch_before))]
fn put_switch<'t>(node: &'t SwitchStatement, found: &mut Collected<'t>) -> Result<(), AllocError>
    ensures { IfOk result (λ _. Collects
        (attributed switch_names (switch_statement_view node.now))
        found.old found.new) }
{
    put_clauses(&node.clauses, found)?;
    node.body_attributes.put_names(found)?;
    node.expression.put_names(found)?;
    node.attributes.put_names(found)
}

#[cycle(statements)]
fn put_switch_clause<'t>(
    node: &'t SwitchClause,
    found: &mut Collected<'t>,
) -> Result<(), AllocError>
    ensures { IfOk result (λ _. Collects
        (switch_clause_names (switch_clause_view node.now))
        found.old found.new) }
{
    put_compound(&node.body, found)?;
    node.case_selectors.put_names(found)?;
    node.attributes.put_names(found)
}

#[cycle(statements)]
#[tactic(auto, using(crate::proofs::Blocks::loop_before))]
fn put_loop<'t>(node: &'t LoopStatement, found: &mut Collected<'t>) -> Result<(), AllocError>
    ensures { IfOk result (λ _. Collects
        (attributed loop_names (loop_statement_view node.now))
        found.old found.new) }
{
    found.put(Occurrence::ScopeEnd)?;
    put_maybe_continuing(&node.continuing, found)?;
    put_statements(&node.body.statements, found)?;
    found.put(Occurrence::ScopeStart)?;
    node.body.attributes.put_names(found)?;
    node.attributes.put_names(found)
}

#[cycle(statements)]
fn put_for<'t>(node: &'t ForStatement, found: &mut Collected<'t>) -> Result<(), AllocError>
    ensures { IfOk result (λ _. Collects
        (attributed for_names (for_statement_view node.now))
        found.old found.new) }
{
    found.put(Occurrence::ScopeEnd)?;
    put_compound(&node.body, found)?;
    put_part(&node.update, found)?;
    node.condition.put_names(found)?;
    put_part(&node.initializer, found)?;
    found.put(Occurrence::ScopeStart)?;
    node.attributes.put_names(found)
}

#[cycle(statements)]
fn put_while<'t>(node: &'t WhileStatement, found: &mut Collected<'t>) -> Result<(), AllocError>
    ensures { IfOk result (λ _. Collects
        (attributed while_names (while_statement_view node.now))
        found.old found.new) }
{
    put_compound(&node.body, found)?;
    node.condition.put_names(found)?;
    node.attributes.put_names(found)
}

#[cycle(statements)]
#[tactic(auto, using(crate::proofs::Blocks::continuing_before))]
fn put_continuing<'t>(
    node: &'t ContinuingStatement,
    found: &mut Collected<'t>,
) -> Result<(), AllocError>
    ensures { IfOk result (λ _. Collects
        (continuing_names (continuing_statement_view node.now))
        found.old found.new) }
{
    found.put(Occurrence::ScopeEnd)?;
    node.break_if.put_names(found)?;
    put_statements(&node.body.statements, found)?;
    found.put(Occurrence::ScopeStart)?;
    node.body.attributes.put_names(found)?;
    node.attributes.put_names(found)
}

#[cycle(statements)]
fn put_statements<'t>(
    nodes: &'t Vec<StatementNode>,
    found: &mut Collected<'t>,
) -> Result<(), AllocError>
    ensures { IfOk result (λ _. Collects
        (statements_names (statement_nodes_view nodes.now.items))
        found.old found.new) }
{
    'nodes: for i in (0..nodes.len()).rev() {
        put_statement(nodes[i].node(), found)?;
    }
    Ok(())
}

#[cycle(statements)]
fn put_else_ifs<'t>(
    nodes: &'t Vec<ElseIfClause>,
    found: &mut Collected<'t>,
) -> Result<(), AllocError>
    ensures { IfOk result (λ _. Collects
        (else_ifs_names (else_ifs_of (map else_if_clause_view nodes.now.items)))
        found.old found.new) }
{
    'nodes: for i in (0..nodes.len()).rev() {
        put_else_if_clause(&nodes[i], found)?;
    }
    Ok(())
}

#[cycle(statements)]
fn put_else<'t>(part: &'t Option<ElseClause>, found: &mut Collected<'t>) -> Result<(), AllocError>
    ensures { IfOk result (λ _. Collects
        (else_names (else_of (option_map else_clause_view part.now)))
        found.old found.new) }
{
    match part {
        None => Ok(()),
        Some(part) => put_else_clause(part, found),
    }
}

#[cycle(statements)]
fn put_clauses<'t>(
    nodes: &'t Vec<SwitchClause>,
    found: &mut Collected<'t>,
) -> Result<(), AllocError>
    ensures { IfOk result (λ _. Collects
        (clauses_names (clauses_of (map switch_clause_view nodes.now.items)))
        found.old found.new) }
{
    'nodes: for i in (0..nodes.len()).rev() {
        put_switch_clause(&nodes[i], found)?;
    }
    Ok(())
}

#[cycle(statements)]
fn put_maybe_continuing<'t>(
    part: &'t Option<ContinuingStatement>,
    found: &mut Collected<'t>,
) -> Result<(), AllocError>
    ensures { IfOk result (λ _. Collects
        (maybe_continuing_names (continuing_of (option_map continuing_statement_view part.now)))
        found.old found.new) }
{
    match part {
        None => Ok(()),
        Some(part) => put_continuing(part, found),
    }
}

#[cycle(statements)]
fn put_part<'t>(
    part: &'t Option<StatementNode>,
    found: &mut Collected<'t>,
) -> Result<(), AllocError>
    ensures { IfOk result (λ _. Collects
        (part_names (maybe_statement (option_map statement_node_view part.now)))
        found.old found.new) }
{
    match part {
        None => Ok(()),
        Some(part) => put_statement(part.node(), found),
    }
}
