//! Written by tools/tables/packed_statements.py from the equations of packed forms: statements.
#![tactic(auto, using(wgsl_tree_statement::proofs::Views::variants))]

ghost use Rattle.std.specs.Prelude.{◌≡◌, ◌++◌, map, OnOk};
ghost use Rattle.std.specs.Option.{option_map};
ghost use Rattle.wgsl_model.specs.Trees.Statements as plain;
ghost use Rattle.wgsl_model.specs.Trees.Statements.{clauses_of, continuing_of, else_of, maybe_statement};
ghost use Rattle.wgsl_model_packed.specs.Statements.{end_of_clauses, packed_compound, packed_continuing, packed_else, packed_else_clause, packed_else_if_clause, packed_if_clause, packed_maybe_continuing, packed_opened, packed_part, packed_statement, packed_switch_clause, packed_unended};
ghost use Rattle.wgsl_tree_packed.specs.Ended.{is_ended};
ghost use Rattle.wgsl_tree_packed.specs.Statements.{packed_block, packed_unended_of};
ghost use Rattle.wgsl_tree_statement.specs.View.{compound_statement_view, continuing_statement_view, else_clause_view, else_if_clause_view, for_statement_view, if_clause_view, if_statement_view, loop_statement_view, statement_node_view, statement_view, switch_clause_view, switch_statement_view, while_statement_view};

use crate::attribute::{pack_attribute_line, pack_attributed};
use crate::expression::pack_expression_node;
use crate::rules::{
    BLOCK, BLOCK_END, BREAK, CONST_ASSERT, CONTINUE, CONTINUING, DECREMENT, DISCARD, ELSE, ELSE_IF,
    EMPTY_END, EMPTY_OPENED_END, ENDED, FOR, IF, IF_CLAUSE, INCREMENT, INDENTED_LINE, ITEM, LINE,
    LINES, LOOP, NODE, NOTHING, OPENED_END, PART, PARTS, SWITCH, SWITCH_CLAUSE, VOID, VOID_ITEM,
    WHILE,
};
use crate::simple::{
    pack_assignment, pack_call_statement, pack_declaration, pack_on_expression, pack_return,
};
use crate::text::{pack_placed, pack_rule};
use crate::traits::{pack_list, pack_optional};
use std::alloc::AllocError;
use wgsl_tree_statement::{
    CompoundStatement, ContinuingStatement, ElseClause, ElseIfClause, ForStatement, IfClause,
    IfStatement, LoopStatement, Statement, StatementNode, SwitchClause, SwitchStatement,
    WhileStatement,
};

/// Writes the packed form of a statement, with the `;` that ends it.
#[cycle(statements)]
pub fn pack_statement(node: &Statement, out: &mut Vec<u8>) -> Result<(), AllocError>
    ensures { OnOk result (out.new.items
        ≡ out.old.items ++ packed_statement (statement_view node.now)) }
{
    if !is_ended(node) {
        return pack_unended(node, out);
    }
    pack_rule(ENDED, out)?;
    pack_unended(node, out)
}

/// Returns whether a `;` ends a statement.
fn is_ended(node: &Statement) -> bool
    ensures { result ≡ is_ended (statement_view node.now) }
{
    match node {
        Statement::Compound(_)
        | Statement::If(_)
        | Statement::Switch(_)
        | Statement::Loop(_)
        | Statement::For(_)
        | Statement::While(_) => false,
        Statement::Void
        | Statement::Assignment(_)
        | Statement::Increment(_)
        | Statement::Decrement(_)
        | Statement::Break(_)
        | Statement::Continue(_)
        | Statement::Return(_)
        | Statement::Discard(_)
        | Statement::FunctionCall(_)
        | Statement::ConstAssert(_)
        | Statement::Declaration(_) => true,
    }
}

/// Writes the packed form of a statement, without the `;` that ends it.
#[cycle(statements)]
fn pack_unended(node: &Statement, out: &mut Vec<u8>) -> Result<(), AllocError>
    ensures { OnOk result (out.new.items
        ≡ out.old.items ++ packed_unended (statement_view node.now)) }
{
    match node {
        Statement::Void => {
            pack_rule(VOID, out)?;
            pack_rule(NOTHING, out)
        }
        Statement::Compound(inner) => pack_block(BLOCK_END, EMPTY_END, inner, out),
        Statement::Assignment(inner) => pack_assignment(inner, out),
        Statement::Increment(inner) => {
            pack_on_expression(INCREMENT, &inner.attributes, &inner.expression, out)
        }
        Statement::Decrement(inner) => {
            pack_on_expression(DECREMENT, &inner.attributes, &inner.expression, out)
        }
        Statement::If(inner) => pack_if(inner, out),
        Statement::Switch(inner) => pack_switch(inner, out),
        Statement::Loop(inner) => pack_loop(inner, out),
        Statement::For(inner) => pack_for(inner, out),
        Statement::While(inner) => pack_while(inner, out),
        Statement::Break(inner) => pack_attributed(BREAK, &inner.attributes, out),
        Statement::Continue(inner) => pack_attributed(CONTINUE, &inner.attributes, out),
        Statement::Return(inner) => pack_return(inner, out),
        Statement::Discard(inner) => pack_attributed(DISCARD, &inner.attributes, out),
        Statement::FunctionCall(inner) => pack_call_statement(inner, out),
        Statement::ConstAssert(inner) => {
            pack_on_expression(CONST_ASSERT, &inner.attributes, &inner.expression, out)
        }
        Statement::Declaration(inner) => pack_declaration(inner, out),
    }
}

/// Writes a block: its attributes, what is in it, and the rule that ends it, one if a statement
/// other than `;` is in it, and one if not.
#[cycle(statements)]
fn pack_block(
    some: u8,
    none: u8,
    node: &CompoundStatement,
    out: &mut Vec<u8>,
) -> Result<(), AllocError>
    ensures { OnOk result (out.new.items
        ≡ out.old.items ++ packed_block some none (compound_statement_view node.now)) }
{
    pack_attributed(BLOCK, &node.attributes, out)?;
    let mut end = none;
    'statements: for item in &node.statements {
        if item.node().is_void() {
            pack_placed(VOID_ITEM, item.span(), out)?;
            continue;
        }
        pack_placed(ITEM, item.span(), out)?;
        pack_statement(item.node(), out)?;
        end = some;
    }
    pack_rule(end, out)
}

/// Writes the packed form of a block.
#[cycle(statements)]
pub fn pack_compound(node: &CompoundStatement, out: &mut Vec<u8>) -> Result<(), AllocError>
    ensures { OnOk result (out.new.items
        ≡ out.old.items ++ packed_compound (compound_statement_view node.now)) }
{
    pack_block(BLOCK_END, EMPTY_END, node, out)
}

/// Writes the body of a `loop` or `continuing`.
#[cycle(statements)]
fn pack_opened(node: &CompoundStatement, out: &mut Vec<u8>) -> Result<(), AllocError>
    ensures { OnOk result (out.new.items ≡ out.old.items
        ++ packed_opened (compound_statement_view node.now)) }
{
    pack_block(OPENED_END, EMPTY_OPENED_END, node, out)
}

#[cycle(statements)]
fn pack_if(node: &IfStatement, out: &mut Vec<u8>) -> Result<(), AllocError>
    ensures { OnOk result (out.new.items ≡ out.old.items
        ++ packed_unended_of plain.if_statement (if_statement_view node.now)) }
{
    pack_attributed(IF, &node.attributes, out)?;
    pack_if_clause(&node.if_clause, out)?;
    'else_if_clauses: for item in &node.else_if_clauses {
        pack_rule(LINES, out)?;
        pack_else_if_clause(item, out)?;
    }
    pack_rule(NOTHING, out)?;
    pack_else(&node.else_clause, out)
}

#[cycle(statements)]
fn pack_if_clause(node: &IfClause, out: &mut Vec<u8>) -> Result<(), AllocError>
    ensures { OnOk result (out.new.items ≡ out.old.items
        ++ packed_if_clause (if_clause_view node.now)) }
{
    pack_rule(IF_CLAUSE, out)?;
    pack_expression_node(&node.expression, out)?;
    pack_compound(&node.body, out)
}

#[cycle(statements)]
fn pack_else_if_clause(node: &ElseIfClause, out: &mut Vec<u8>) -> Result<(), AllocError>
    ensures { OnOk result (out.new.items ≡ out.old.items
        ++ packed_else_if_clause (else_if_clause_view node.now)) }
{
    pack_on_expression(ELSE_IF, &node.attributes, &node.expression, out)?;
    pack_compound(&node.body, out)
}

#[cycle(statements)]
fn pack_else(part: &Option<ElseClause>, out: &mut Vec<u8>) -> Result<(), AllocError>
    ensures { OnOk result (out.new.items ≡ out.old.items
        ++ packed_else (else_of (option_map else_clause_view part.now))) }
{
    match part {
        None => pack_rule(NOTHING, out),
        Some(node) => {
            pack_rule(LINE, out)?;
            pack_else_clause(node, out)
        }
    }
}

#[cycle(statements)]
fn pack_else_clause(node: &ElseClause, out: &mut Vec<u8>) -> Result<(), AllocError>
    ensures { OnOk result (out.new.items ≡ out.old.items
        ++ packed_else_clause (else_clause_view node.now)) }
{
    pack_attributed(ELSE, &node.attributes, out)?;
    pack_compound(&node.body, out)
}

#[cycle(statements)]
fn pack_switch(node: &SwitchStatement, out: &mut Vec<u8>) -> Result<(), AllocError>
    ensures { OnOk result (out.new.items ≡ out.old.items
        ++ packed_unended_of plain.switch_statement (switch_statement_view node.now)) }
{
    pack_on_expression(SWITCH, &node.attributes, &node.expression, out)?;
    pack_attribute_line(&node.body_attributes, out)?;
    'clauses: for item in &node.clauses {
        pack_rule(LINES, out)?;
        pack_switch_clause(item, out)?;
    }
    pack_rule(end_of_clauses(&node.clauses), out)
}

/// Returns the rule that ends the clauses of a `switch`.
fn end_of_clauses(clauses: &Vec<SwitchClause>) -> u8
    ensures { result ≡ end_of_clauses (clauses_of (map switch_clause_view clauses.now.items)) }
{
    if clauses.as_slice().is_empty() {
        EMPTY_END
    } else {
        BLOCK_END
    }
}

#[cycle(statements)]
fn pack_switch_clause(node: &SwitchClause, out: &mut Vec<u8>) -> Result<(), AllocError>
    ensures { OnOk result (out.new.items ≡ out.old.items
        ++ packed_switch_clause (switch_clause_view node.now)) }
{
    pack_attributed(SWITCH_CLAUSE, &node.attributes, out)?;
    pack_list(NOTHING, PARTS, PART, &node.case_selectors, out)?;
    pack_compound(&node.body, out)
}

#[cycle(statements)]
fn pack_loop(node: &LoopStatement, out: &mut Vec<u8>) -> Result<(), AllocError>
    ensures { OnOk result (out.new.items ≡ out.old.items
        ++ packed_unended_of plain.loop_statement (loop_statement_view node.now)) }
{
    pack_attributed(LOOP, &node.attributes, out)?;
    pack_opened(&node.body, out)?;
    pack_maybe_continuing(&node.continuing, out)
}

#[cycle(statements)]
fn pack_maybe_continuing(
    part: &Option<ContinuingStatement>,
    out: &mut Vec<u8>,
) -> Result<(), AllocError>
    ensures { OnOk result (out.new.items ≡ out.old.items
        ++ packed_maybe_continuing
        (continuing_of (option_map continuing_statement_view part.now))) }
{
    match part {
        None => pack_rule(NOTHING, out),
        Some(node) => {
            pack_rule(INDENTED_LINE, out)?;
            pack_continuing(node, out)
        }
    }
}

#[cycle(statements)]
fn pack_continuing(node: &ContinuingStatement, out: &mut Vec<u8>) -> Result<(), AllocError>
    ensures { OnOk result (out.new.items ≡ out.old.items
        ++ packed_continuing (continuing_statement_view node.now)) }
{
    pack_attributed(CONTINUING, &node.attributes, out)?;
    pack_opened(&node.body, out)?;
    pack_optional(INDENTED_LINE, &node.break_if, out)
}

#[cycle(statements)]
fn pack_for(node: &ForStatement, out: &mut Vec<u8>) -> Result<(), AllocError>
    ensures { OnOk result (out.new.items ≡ out.old.items
        ++ packed_unended_of plain.for_statement (for_statement_view node.now)) }
{
    pack_attributed(FOR, &node.attributes, out)?;
    pack_part(&node.initializer, out)?;
    pack_optional(NODE, &node.condition, out)?;
    pack_part(&node.update, out)?;
    pack_compound(&node.body, out)
}

/// Writes a part of a `for` header, if it is there, without the `;` that ends it.
#[cycle(statements)]
fn pack_part(part: &Option<StatementNode>, out: &mut Vec<u8>) -> Result<(), AllocError>
    ensures { OnOk result (out.new.items ≡ out.old.items
        ++ packed_part (maybe_statement (option_map statement_node_view part.now))) }
{
    match part {
        None => pack_rule(NOTHING, out),
        Some(node) => {
            pack_placed(NODE, node.span(), out)?;
            pack_unended(node.node(), out)
        }
    }
}

#[cycle(statements)]
fn pack_while(node: &WhileStatement, out: &mut Vec<u8>) -> Result<(), AllocError>
    ensures { OnOk result (out.new.items ≡ out.old.items
        ++ packed_unended_of plain.while_statement (while_statement_view node.now)) }
{
    pack_on_expression(WHILE, &node.attributes, &node.condition, out)?;
    pack_compound(&node.body, out)
}
