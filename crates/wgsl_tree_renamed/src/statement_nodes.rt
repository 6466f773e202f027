//! Written by tools/tables/renamed_trees.py from crates/wgsl_model/nodes: copies with new names.

ghost use Rattle.std.specs.Option.{option_map};
ghost use Rattle.std.specs.Prelude.{◌≡◌, IfOk, map};
ghost use Rattle.wgsl_model.specs.Trees.Statements as plain;
ghost use Rattle.wgsl_tree_statement.specs.View.{compound_statement_view};
ghost use Rattle.wgsl_tree_statement.specs.View.{continuing_statement_view, else_clause_view};
ghost use Rattle.wgsl_tree_statement.specs.View.{else_if_clause_view, for_statement_view};
ghost use Rattle.wgsl_tree_statement.specs.View.{if_clause_view, if_statement_view};
ghost use Rattle.wgsl_tree_statement.specs.View.{loop_statement_view, statement_node_view};
ghost use Rattle.wgsl_tree_statement.specs.View.{statement_view, switch_clause_view};
ghost use Rattle.wgsl_tree_statement.specs.View.{switch_statement_view, while_statement_view};
ghost use Rattle.wgsl_tree_renamed.specs.NewNames.{change_by};

use crate::attribute::renamed_attributes;
use crate::new_names::NewNames;
use crate::traits::Rename;
use std::alloc::{AllocError, Global};
use wgsl_span::Spanned;
use wgsl_tree_statement::{
    CompoundStatement, ContinuingStatement, ElseClause, ElseIfClause, ForStatement, IfClause,
    IfStatement, LoopStatement, Statement, StatementNode, SwitchClause, SwitchStatement,
    WhileStatement,
};

#[cycle(statements)]
fn renamed_statement(
    node: &Statement,
    names: &NewNames,
    alloc: Global,
) -> Result<Statement, AllocError>
    ensures { IfOk result (λ copy.
        statement_view copy
        ≡ plain.changed_statement (change_by names.now)
        (statement_view node.now)) }
{
    match node {
        Statement::Void => Ok(Statement::Void),
        Statement::Compound(inner) => Ok(Statement::Compound(renamed_compound(
            inner, names, alloc,
        )?)),
        Statement::Assignment(inner) => Ok(Statement::Assignment(inner.renamed(names, alloc)?)),
        Statement::Increment(inner) => Ok(Statement::Increment(inner.renamed(names, alloc)?)),
        Statement::Decrement(inner) => Ok(Statement::Decrement(inner.renamed(names, alloc)?)),
        Statement::If(inner) => Ok(Statement::If(renamed_if(inner, names, alloc)?)),
        Statement::Switch(inner) => Ok(Statement::Switch(renamed_switch(inner, names, alloc)?)),
        Statement::Loop(inner) => Ok(Statement::Loop(renamed_loop(inner, names, alloc)?)),
        Statement::For(inner) => Ok(Statement::For(renamed_for(inner, names, alloc)?)),
        Statement::While(inner) => Ok(Statement::While(renamed_while(inner, names, alloc)?)),
        Statement::Break(inner) => Ok(Statement::Break(inner.renamed(names, alloc)?)),
        Statement::Continue(inner) => Ok(Statement::Continue(inner.renamed(names, alloc)?)),
        Statement::Return(inner) => Ok(Statement::Return(inner.renamed(names, alloc)?)),
        Statement::Discard(inner) => Ok(Statement::Discard(inner.renamed(names, alloc)?)),
        Statement::FunctionCall(inner) => Ok(Statement::FunctionCall(inner.renamed(names, alloc)?)),
        Statement::ConstAssert(inner) => Ok(Statement::ConstAssert(inner.renamed(names, alloc)?)),
        Statement::Declaration(inner) => Ok(Statement::Declaration(inner.renamed(names, alloc)?)),
    }
}

#[cycle(statements)]
pub(crate) fn renamed_compound(
    node: &CompoundStatement,
    names: &NewNames,
    alloc: Global,
) -> Result<CompoundStatement, AllocError>
    ensures { IfOk result (λ copy.
        compound_statement_view copy
        ≡ plain.changed_compound (change_by names.now)
        (compound_statement_view node.now)) }
{
    Ok(CompoundStatement {
        attributes: renamed_attributes(&node.attributes, names, alloc)?,
        statements: renamed_statements(&node.statements, names, alloc)?,
    })
}

#[cycle(statements)]
fn renamed_if(
    node: &IfStatement,
    names: &NewNames,
    alloc: Global,
) -> Result<IfStatement, AllocError>
    ensures { IfOk result (λ copy.
        plain.as_statement plain.if_statement (if_statement_view copy)
        ≡ plain.changed_statement (change_by names.now)
        (plain.as_statement plain.if_statement (if_statement_view node.now))) }
{
    Ok(IfStatement {
        attributes: renamed_attributes(&node.attributes, names, alloc)?,
        if_clause: renamed_if_clause(&node.if_clause, names, alloc)?,
        else_if_clauses: renamed_else_ifs(&node.else_if_clauses, names, alloc)?,
        else_clause: renamed_else(&node.else_clause, names, alloc)?,
    })
}

#[cycle(statements)]
fn renamed_if_clause(
    node: &IfClause,
    names: &NewNames,
    alloc: Global,
) -> Result<IfClause, AllocError>
    ensures { IfOk result (λ copy.
        if_clause_view copy
        ≡ plain.changed_if_clause (change_by names.now)
        (if_clause_view node.now)) }
{
    Ok(IfClause {
        expression: node.expression.renamed(names, alloc)?,
        body: renamed_compound(&node.body, names, alloc)?,
    })
}

#[cycle(statements)]
fn renamed_else_if_clause(
    node: &ElseIfClause,
    names: &NewNames,
    alloc: Global,
) -> Result<ElseIfClause, AllocError>
    ensures { IfOk result (λ copy.
        else_if_clause_view copy
        ≡ plain.changed_else_if_clause (change_by names.now)
        (else_if_clause_view node.now)) }
{
    Ok(ElseIfClause {
        attributes: renamed_attributes(&node.attributes, names, alloc)?,
        expression: node.expression.renamed(names, alloc)?,
        body: renamed_compound(&node.body, names, alloc)?,
    })
}

#[cycle(statements)]
fn renamed_else_clause(
    node: &ElseClause,
    names: &NewNames,
    alloc: Global,
) -> Result<ElseClause, AllocError>
    ensures { IfOk result (λ copy.
        else_clause_view copy
        ≡ plain.changed_else_clause (change_by names.now)
        (else_clause_view node.now)) }
{
    Ok(ElseClause {
        attributes: renamed_attributes(&node.attributes, names, alloc)?,
        body: renamed_compound(&node.body, names, alloc)?,
    })
}

#[cycle(statements)]
fn renamed_switch(
    node: &SwitchStatement,
    names: &NewNames,
    alloc: Global,
) -> Result<SwitchStatement, AllocError>
    ensures { IfOk result (λ copy.
        plain.as_statement plain.switch_statement (switch_statement_view copy)
        ≡ plain.changed_statement (change_by names.now)
        (plain.as_statement plain.switch_statement (switch_statement_view node.now))) }
{
    Ok(SwitchStatement {
        attributes: renamed_attributes(&node.attributes, names, alloc)?,
        expression: node.expression.renamed(names, alloc)?,
        body_attributes: renamed_attributes(&node.body_attributes, names, alloc)?,
        clauses: renamed_clauses(&node.clauses, names, alloc)?,
    })
}

#[cycle(statements)]
fn renamed_switch_clause(
    node: &SwitchClause,
    names: &NewNames,
    alloc: Global,
) -> Result<SwitchClause, AllocError>
    ensures { IfOk result (λ copy.
        switch_clause_view copy
        ≡ plain.changed_switch_clause (change_by names.now)
        (switch_clause_view node.now)) }
{
    Ok(SwitchClause {
        attributes: renamed_attributes(&node.attributes, names, alloc)?,
        case_selectors: node.case_selectors.renamed(names, alloc)?,
        body: renamed_compound(&node.body, names, alloc)?,
    })
}

#[cycle(statements)]
fn renamed_loop(
    node: &LoopStatement,
    names: &NewNames,
    alloc: Global,
) -> Result<LoopStatement, AllocError>
    ensures { IfOk result (λ copy.
        plain.as_statement plain.loop_statement (loop_statement_view copy)
        ≡ plain.changed_statement (change_by names.now)
        (plain.as_statement plain.loop_statement (loop_statement_view node.now))) }
{
    Ok(LoopStatement {
        attributes: renamed_attributes(&node.attributes, names, alloc)?,
        body: renamed_compound(&node.body, names, alloc)?,
        continuing: renamed_maybe_continuing(&node.continuing, names, alloc)?,
    })
}

#[cycle(statements)]
fn renamed_for(
    node: &ForStatement,
    names: &NewNames,
    alloc: Global,
) -> Result<ForStatement, AllocError>
    ensures { IfOk result (λ copy.
        plain.as_statement plain.for_statement (for_statement_view copy)
        ≡ plain.changed_statement (change_by names.now)
        (plain.as_statement plain.for_statement (for_statement_view node.now))) }
{
    Ok(ForStatement {
        attributes: renamed_attributes(&node.attributes, names, alloc)?,
        initializer: renamed_part(&node.initializer, names, alloc)?,
        condition: node.condition.renamed(names, alloc)?,
        update: renamed_part(&node.update, names, alloc)?,
        body: renamed_compound(&node.body, names, alloc)?,
    })
}

#[cycle(statements)]
fn renamed_while(
    node: &WhileStatement,
    names: &NewNames,
    alloc: Global,
) -> Result<WhileStatement, AllocError>
    ensures { IfOk result (λ copy.
        plain.as_statement plain.while_statement (while_statement_view copy)
        ≡ plain.changed_statement (change_by names.now)
        (plain.as_statement plain.while_statement (while_statement_view node.now))) }
{
    Ok(WhileStatement {
        attributes: renamed_attributes(&node.attributes, names, alloc)?,
        condition: node.condition.renamed(names, alloc)?,
        body: renamed_compound(&node.body, names, alloc)?,
    })
}

#[cycle(statements)]
fn renamed_continuing(
    node: &ContinuingStatement,
    names: &NewNames,
    alloc: Global,
) -> Result<ContinuingStatement, AllocError>
    ensures { IfOk result (λ copy.
        continuing_statement_view copy
        ≡ plain.changed_continuing (change_by names.now)
        (continuing_statement_view node.now)) }
{
    Ok(ContinuingStatement {
        attributes: renamed_attributes(&node.attributes, names, alloc)?,
        body: renamed_compound(&node.body, names, alloc)?,
        break_if: node.break_if.renamed(names, alloc)?,
    })
}

#[cycle(statements)]
fn renamed_statements(
    part: &[StatementNode],
    names: &NewNames,
    alloc: Global,
) -> Result<Vec<StatementNode>, AllocError>
    ensures { IfOk result (λ copy.
        map statement_node_view copy.items
        ≡ map (plain.changed_node (change_by names.now))
        (map statement_node_view part.now)) }
{
    let mut copies = Vec::with_capacity(alloc, part.len())?;
    'nodes: for node in part {
        let copy = renamed_statement(node.node(), names, alloc)?;
        copies.push(Spanned::new(alloc, copy, node.span())?)?;
    }
    Ok(copies)
}

#[cycle(statements)]
fn renamed_else_ifs(
    part: &[ElseIfClause],
    names: &NewNames,
    alloc: Global,
) -> Result<Vec<ElseIfClause>, AllocError>
    ensures { IfOk result (λ copy.
        map else_if_clause_view copy.items
        ≡ map (plain.changed_else_if_clause (change_by names.now))
        (map else_if_clause_view part.now)) }
{
    let mut copies = Vec::with_capacity(alloc, part.len())?;
    'nodes: for node in part {
        copies.push(renamed_else_if_clause(node, names, alloc)?)?;
    }
    Ok(copies)
}

#[cycle(statements)]
fn renamed_else(
    part: &Option<ElseClause>,
    names: &NewNames,
    alloc: Global,
) -> Result<Option<ElseClause>, AllocError>
    ensures { IfOk result (λ copy.
        option_map else_clause_view copy
        ≡ option_map (plain.changed_else_clause (change_by names.now))
        (option_map else_clause_view part.now)) }
{
    match part {
        None => Ok(None),
        Some(node) => { Ok(Some(renamed_else_clause(node, names, alloc)?)) }
    }
}

#[cycle(statements)]
fn renamed_clauses(
    part: &[SwitchClause],
    names: &NewNames,
    alloc: Global,
) -> Result<Vec<SwitchClause>, AllocError>
    ensures { IfOk result (λ copy.
        map switch_clause_view copy.items
        ≡ map (plain.changed_switch_clause (change_by names.now))
        (map switch_clause_view part.now)) }
{
    let mut copies = Vec::with_capacity(alloc, part.len())?;
    'nodes: for node in part {
        copies.push(renamed_switch_clause(node, names, alloc)?)?;
    }
    Ok(copies)
}

#[cycle(statements)]
fn renamed_maybe_continuing(
    part: &Option<ContinuingStatement>,
    names: &NewNames,
    alloc: Global,
) -> Result<Option<ContinuingStatement>, AllocError>
    ensures { IfOk result (λ copy.
        option_map continuing_statement_view copy
        ≡ option_map (plain.changed_continuing (change_by names.now))
        (option_map continuing_statement_view part.now)) }
{
    match part {
        None => Ok(None),
        Some(node) => { Ok(Some(renamed_continuing(node, names, alloc)?)) }
    }
}

#[cycle(statements)]
fn renamed_part(
    part: &Option<StatementNode>,
    names: &NewNames,
    alloc: Global,
) -> Result<Option<StatementNode>, AllocError>
    ensures { IfOk result (λ copy.
        option_map statement_node_view copy
        ≡ option_map (plain.changed_node (change_by names.now))
        (option_map statement_node_view part.now)) }
{
    match part {
        None => Ok(None),
        Some(node) => {
            let copy = renamed_statement(node.node(), names, alloc)?;
            Ok(Some(Spanned::new(alloc, copy, node.span())?))
        }
    }
}
