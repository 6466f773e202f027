//! Written by tools/tables/tree_copies.py from crates/wgsl_model/nodes: copies of nodes.

ghost use Rattle.std.specs.Option.{option_map};
ghost use Rattle.std.specs.Prelude.{◌≡◌, IfOk, map};
ghost use Rattle.wgsl_tree_statement.specs.View.{statement_view, compound_statement_view};
ghost use Rattle.wgsl_tree_statement.specs.View.{if_statement_view, if_clause_view};
ghost use Rattle.wgsl_tree_statement.specs.View.{else_if_clause_view, else_clause_view};
ghost use Rattle.wgsl_tree_statement.specs.View.{switch_statement_view, switch_clause_view};
ghost use Rattle.wgsl_tree_statement.specs.View.{loop_statement_view, for_statement_view};
ghost use Rattle.wgsl_tree_statement.specs.View.{while_statement_view, continuing_statement_view};
ghost use Rattle.wgsl_tree_statement.specs.View.{statement_node_view, statement_nodes_view};

use crate::compound::CompoundStatement;
use crate::continuing::ContinuingStatement;
use crate::else_clause::{ElseClause, ElseIfClause};
use crate::for_statement::ForStatement;
use crate::if_statement::{IfClause, IfStatement};
use crate::loop_statement::LoopStatement;
use crate::statement::{Statement, StatementNode};
use crate::switch::{SwitchClause, SwitchStatement};
use crate::while_statement::WhileStatement;
use std::alloc::{AllocError, Global};
use wgsl_span::{CloneWith, Spanned};
use wgsl_tree_simple::clone_attributes;

impl Statement {
    /// Returns a copy, unless allocation fails.
    pub fn clone(&self, alloc: Global) -> Result<Self, AllocError>
        ensures { IfOk result (λ copy. statement_view copy ≡ statement_view self.now) }
    {
        self.clone_with(alloc)
    }
}

impl CloneWith for Statement {
    ghost copies = { λ node copy. statement_view copy ≡ statement_view node };

    #[tactic(auto, using(crate::proofs::Views::variants))]
    #[cycle(clone)]
    fn clone_with(&self, alloc: Global) -> Result<Self, AllocError> {
        match self {
            Statement::Void => Ok(Statement::Void),
            Statement::Compound(inner) => Ok(Statement::Compound(inner.clone_with(alloc)?)),
            Statement::Assignment(inner) => Ok(Statement::Assignment(inner.clone_with(alloc)?)),
            Statement::Increment(inner) => Ok(Statement::Increment(inner.clone_with(alloc)?)),
            Statement::Decrement(inner) => Ok(Statement::Decrement(inner.clone_with(alloc)?)),
            Statement::If(inner) => Ok(Statement::If(inner.clone_with(alloc)?)),
            Statement::Switch(inner) => Ok(Statement::Switch(inner.clone_with(alloc)?)),
            Statement::Loop(inner) => Ok(Statement::Loop(inner.clone_with(alloc)?)),
            Statement::For(inner) => Ok(Statement::For(inner.clone_with(alloc)?)),
            Statement::While(inner) => Ok(Statement::While(inner.clone_with(alloc)?)),
            Statement::Break(inner) => Ok(Statement::Break(inner.clone_with(alloc)?)),
            Statement::Continue(inner) => Ok(Statement::Continue(inner.clone_with(alloc)?)),
            Statement::Return(inner) => Ok(Statement::Return(inner.clone_with(alloc)?)),
            Statement::Discard(inner) => Ok(Statement::Discard(inner.clone_with(alloc)?)),
            Statement::FunctionCall(inner) => Ok(Statement::FunctionCall(inner.clone_with(alloc)?)),
            Statement::ConstAssert(inner) => Ok(Statement::ConstAssert(inner.clone_with(alloc)?)),
            Statement::Declaration(inner) => Ok(Statement::Declaration(inner.clone_with(alloc)?)),
        }
    }
}

impl CompoundStatement {
    /// Returns a copy, unless allocation fails.
    pub fn clone(&self, alloc: Global) -> Result<Self, AllocError>
        ensures { IfOk result (λ copy.
            compound_statement_view copy ≡ compound_statement_view self.now) }
    {
        self.clone_with(alloc)
    }
}

impl CloneWith for CompoundStatement {
    ghost copies = { λ node copy. compound_statement_view copy ≡ compound_statement_view node };

    #[cycle(clone)]
    fn clone_with(&self, alloc: Global) -> Result<Self, AllocError> {
        Ok(CompoundStatement {
            attributes: clone_attributes(&self.attributes, alloc)?,
            statements: clone_statements(&self.statements, alloc)?,
        })
    }
}

impl IfStatement {
    /// Returns a copy, unless allocation fails.
    pub fn clone(&self, alloc: Global) -> Result<Self, AllocError>
        ensures { IfOk result (λ copy. if_statement_view copy ≡ if_statement_view self.now) }
    {
        self.clone_with(alloc)
    }
}

impl CloneWith for IfStatement {
    ghost copies = { λ node copy. if_statement_view copy ≡ if_statement_view node };

    #[cycle(clone)]
    fn clone_with(&self, alloc: Global) -> Result<Self, AllocError> {
        Ok(IfStatement {
            attributes: clone_attributes(&self.attributes, alloc)?,
            if_clause: self.if_clause.clone_with(alloc)?,
            else_if_clauses: clone_else_ifs(&self.else_if_clauses, alloc)?,
            else_clause: clone_else(&self.else_clause, alloc)?,
        })
    }
}

impl IfClause {
    /// Returns a copy, unless allocation fails.
    pub fn clone(&self, alloc: Global) -> Result<Self, AllocError>
        ensures { IfOk result (λ copy. if_clause_view copy ≡ if_clause_view self.now) }
    {
        self.clone_with(alloc)
    }
}

impl CloneWith for IfClause {
    ghost copies = { λ node copy. if_clause_view copy ≡ if_clause_view node };

    #[cycle(clone)]
    fn clone_with(&self, alloc: Global) -> Result<Self, AllocError> {
        Ok(IfClause {
            expression: self.expression.clone_with(alloc)?,
            body: self.body.clone_with(alloc)?,
        })
    }
}

impl ElseIfClause {
    /// Returns a copy, unless allocation fails.
    pub fn clone(&self, alloc: Global) -> Result<Self, AllocError>
        ensures { IfOk result (λ copy. else_if_clause_view copy ≡ else_if_clause_view self.now) }
    {
        self.clone_with(alloc)
    }
}

impl CloneWith for ElseIfClause {
    ghost copies = { λ node copy. else_if_clause_view copy ≡ else_if_clause_view node };

    #[cycle(clone)]
    fn clone_with(&self, alloc: Global) -> Result<Self, AllocError> {
        Ok(ElseIfClause {
            attributes: clone_attributes(&self.attributes, alloc)?,
            expression: self.expression.clone_with(alloc)?,
            body: self.body.clone_with(alloc)?,
        })
    }
}

impl ElseClause {
    /// Returns a copy, unless allocation fails.
    pub fn clone(&self, alloc: Global) -> Result<Self, AllocError>
        ensures { IfOk result (λ copy. else_clause_view copy ≡ else_clause_view self.now) }
    {
        self.clone_with(alloc)
    }
}

impl CloneWith for ElseClause {
    ghost copies = { λ node copy. else_clause_view copy ≡ else_clause_view node };

    #[cycle(clone)]
    fn clone_with(&self, alloc: Global) -> Result<Self, AllocError> {
        Ok(ElseClause {
            attributes: clone_attributes(&self.attributes, alloc)?,
            body: self.body.clone_with(alloc)?,
        })
    }
}

impl SwitchStatement {
    /// Returns a copy, unless allocation fails.
    pub fn clone(&self, alloc: Global) -> Result<Self, AllocError>
        ensures { IfOk result (λ copy. switch_statement_view copy ≡ switch_statement_view self.now) }
    {
        self.clone_with(alloc)
    }
}

impl CloneWith for SwitchStatement {
    ghost copies = { λ node copy. switch_statement_view copy ≡ switch_statement_view node };

    #[cycle(clone)]
    fn clone_with(&self, alloc: Global) -> Result<Self, AllocError> {
        Ok(SwitchStatement {
            attributes: clone_attributes(&self.attributes, alloc)?,
            expression: self.expression.clone_with(alloc)?,
            body_attributes: clone_attributes(&self.body_attributes, alloc)?,
            clauses: clone_clauses(&self.clauses, alloc)?,
        })
    }
}

impl SwitchClause {
    /// Returns a copy, unless allocation fails.
    pub fn clone(&self, alloc: Global) -> Result<Self, AllocError>
        ensures { IfOk result (λ copy. switch_clause_view copy ≡ switch_clause_view self.now) }
    {
        self.clone_with(alloc)
    }
}

impl CloneWith for SwitchClause {
    ghost copies = { λ node copy. switch_clause_view copy ≡ switch_clause_view node };

    #[cycle(clone)]
    fn clone_with(&self, alloc: Global) -> Result<Self, AllocError> {
        Ok(SwitchClause {
            attributes: clone_attributes(&self.attributes, alloc)?,
            case_selectors: self.case_selectors.clone_with(alloc)?,
            body: self.body.clone_with(alloc)?,
        })
    }
}

impl LoopStatement {
    /// Returns a copy, unless allocation fails.
    pub fn clone(&self, alloc: Global) -> Result<Self, AllocError>
        ensures { IfOk result (λ copy. loop_statement_view copy ≡ loop_statement_view self.now) }
    {
        self.clone_with(alloc)
    }
}

impl CloneWith for LoopStatement {
    ghost copies = { λ node copy. loop_statement_view copy ≡ loop_statement_view node };

    #[cycle(clone)]
    fn clone_with(&self, alloc: Global) -> Result<Self, AllocError> {
        Ok(LoopStatement {
            attributes: clone_attributes(&self.attributes, alloc)?,
            body: self.body.clone_with(alloc)?,
            continuing: clone_maybe_continuing(&self.continuing, alloc)?,
        })
    }
}

impl ForStatement {
    /// Returns a copy, unless allocation fails.
    pub fn clone(&self, alloc: Global) -> Result<Self, AllocError>
        ensures { IfOk result (λ copy. for_statement_view copy ≡ for_statement_view self.now) }
    {
        self.clone_with(alloc)
    }
}

impl CloneWith for ForStatement {
    ghost copies = { λ node copy. for_statement_view copy ≡ for_statement_view node };

    #[cycle(clone)]
    fn clone_with(&self, alloc: Global) -> Result<Self, AllocError> {
        Ok(ForStatement {
            attributes: clone_attributes(&self.attributes, alloc)?,
            initializer: clone_part(&self.initializer, alloc)?,
            condition: self.condition.clone_with(alloc)?,
            update: clone_part(&self.update, alloc)?,
            body: self.body.clone_with(alloc)?,
        })
    }
}

impl WhileStatement {
    /// Returns a copy, unless allocation fails.
    pub fn clone(&self, alloc: Global) -> Result<Self, AllocError>
        ensures { IfOk result (λ copy. while_statement_view copy ≡ while_statement_view self.now) }
    {
        self.clone_with(alloc)
    }
}

impl CloneWith for WhileStatement {
    ghost copies = { λ node copy. while_statement_view copy ≡ while_statement_view node };

    #[cycle(clone)]
    fn clone_with(&self, alloc: Global) -> Result<Self, AllocError> {
        Ok(WhileStatement {
            attributes: clone_attributes(&self.attributes, alloc)?,
            condition: self.condition.clone_with(alloc)?,
            body: self.body.clone_with(alloc)?,
        })
    }
}

impl ContinuingStatement {
    /// Returns a copy, unless allocation fails.
    pub fn clone(&self, alloc: Global) -> Result<Self, AllocError>
        ensures { IfOk result (λ copy.
            continuing_statement_view copy ≡ continuing_statement_view self.now) }
    {
        self.clone_with(alloc)
    }
}

impl CloneWith for ContinuingStatement {
    ghost copies = { λ node copy. continuing_statement_view copy ≡ continuing_statement_view node };

    #[cycle(clone)]
    fn clone_with(&self, alloc: Global) -> Result<Self, AllocError> {
        Ok(ContinuingStatement {
            attributes: clone_attributes(&self.attributes, alloc)?,
            body: self.body.clone_with(alloc)?,
            break_if: self.break_if.clone_with(alloc)?,
        })
    }
}

#[cycle(clone)]
fn clone_statements(part: &[StatementNode], alloc: Global) -> Result<Vec<StatementNode>, AllocError>
    ensures { IfOk result (λ copy.
        statement_nodes_view copy.items ≡ statement_nodes_view part.now) }
{
    let mut copies = Vec::new(alloc);
    'nodes: for node in part {
        let copy = node.node().clone_with(alloc)?;
        copies.push(Spanned::new(alloc, copy, node.span())?)?;
    }
    Ok(copies)
}

#[cycle(clone)]
fn clone_else_ifs(part: &[ElseIfClause], alloc: Global) -> Result<Vec<ElseIfClause>, AllocError>
    ensures { IfOk result (λ copy.
        map else_if_clause_view copy.items ≡ map else_if_clause_view part.now) }
{
    let mut copies = Vec::new(alloc);
    'nodes: for node in part {
        copies.push(node.clone_with(alloc)?)?;
    }
    Ok(copies)
}

#[cycle(clone)]
fn clone_else(part: &Option<ElseClause>, alloc: Global) -> Result<Option<ElseClause>, AllocError>
    ensures { IfOk result (λ copy.
        option_map else_clause_view copy ≡ option_map else_clause_view part.now) }
{
    match part {
        None => Ok(None),
        Some(node) => { Ok(Some(node.clone_with(alloc)?)) }
    }
}

#[cycle(clone)]
fn clone_clauses(part: &[SwitchClause], alloc: Global) -> Result<Vec<SwitchClause>, AllocError>
    ensures { IfOk result (λ copy.
        map switch_clause_view copy.items ≡ map switch_clause_view part.now) }
{
    let mut copies = Vec::new(alloc);
    'nodes: for node in part {
        copies.push(node.clone_with(alloc)?)?;
    }
    Ok(copies)
}

#[cycle(clone)]
fn clone_maybe_continuing(
    part: &Option<ContinuingStatement>,
    alloc: Global,
) -> Result<Option<ContinuingStatement>, AllocError>
    ensures { IfOk result (λ copy.
        option_map continuing_statement_view copy ≡ option_map continuing_statement_view part.now) }
{
    match part {
        None => Ok(None),
        Some(node) => { Ok(Some(node.clone_with(alloc)?)) }
    }
}

#[cycle(clone)]
fn clone_part(
    part: &Option<StatementNode>,
    alloc: Global,
) -> Result<Option<StatementNode>, AllocError>
    ensures { IfOk result (λ copy.
        option_map statement_node_view copy ≡ option_map statement_node_view part.now) }
{
    match part {
        None => Ok(None),
        Some(node) => {
            let copy = node.node().clone_with(alloc)?;
            Ok(Some(Spanned::new(alloc, copy, node.span())?))
        }
    }
}
