//! `loop` with its `continuing`, `while` and `for`.
#![tactic(auto, unfolding(crate::proofs::Hints::definitions), using(crate::proofs::Hints::lemmas))]

ghost use Rattle.std.specs.Prelude.{map, option_map};
ghost use Rattle.wgsl_model.specs.Trees.Statements.{statement, continuing_statement_of};
ghost use Rattle.wgsl_tree_attribute.specs.View.{attributes_view};
ghost use Rattle.wgsl_tree_simple.specs.View.{break_if_view};
ghost use Rattle.wgsl_tree_statement.specs.View.{statement_view, statement_node_view, continuing_statement_view};
ghost use Rattle.wgsl_theory_grammar.specs.Factored.{FactoredSymbol.further, Further.loop_part, Further.loop_rest, Further.continuing_part, Further.continuing_rest, Further.while_part, Further.for_part};
ghost use Rattle.wgsl_theory_grammar.specs.Reader.{reader};
ghost use Rattle.wgsl_read_cursor.specs.Reading.{Parses};
ghost use Rattle.wgsl_read_attribute.specs.After.{after_attributes};

use crate::block::parse_compound_statement;
use crate::statement::parse_statement_after;
use std::alloc::Global;
use wgsl_lex_token::kind::TokenKind;
use wgsl_read_attribute::parse_attributes;
use wgsl_read_cursor::{Cursor, Fault};
use wgsl_read_part::{
    begins_plain_statement, break_node, parse_block_start_after, parse_break_if_rest,
    parse_condition, parse_for_header, parse_plain_statement,
};
use wgsl_tree_attribute::Attributes;
use wgsl_tree_simple::BreakIfStatement;
use wgsl_tree_statement::{
    CompoundStatement, ContinuingStatement, ForStatement, LoopStatement, Statement, StatementNode,
    WhileStatement,
};

/// Reads a `loop`, after its attributes.
#[tactic(auto, using(crate::proofs::LoopParts::loops))]
#[inline(never)]
#[cycle(statement)]
pub fn parse_loop_part(
    alloc: Global,
    tokens: &mut Cursor,
    attributes: Attributes,
) -> Result<Statement, Fault>
    ensures { Parses statement_view result tokens.old tokens.new (after_attributes statement
        (attributes_view attributes.items) (reader (further loop_part))) }
{
    let body_attributes = parse_block_start_after(alloc, tokens, TokenKind::KwLoop)?;
    let (statements, continuing) = parse_loop_rest(alloc, tokens)?;
    Ok(Statement::Loop(LoopStatement {
        attributes,
        body: CompoundStatement {
            attributes: body_attributes,
            statements,
        },
        continuing,
    }))
}

/// The statements of a `loop`, its `continuing` if there is one, and the `}` after them.
#[cycle(statement)]
fn parse_loop_rest(
    alloc: Global,
    tokens: &mut Cursor,
) -> Result<(Vec<StatementNode>, Option<ContinuingStatement>), Fault>
    ensures { Parses (λ rest. (map statement_node_view rest.0.items, option_map continuing_statement_view rest.1)) result tokens.old tokens.new (reader (further loop_rest)) }
{
    let mut statements = Vec::new(alloc);
    'statements: while !tokens.eat(TokenKind::SymBraceRight) {
        if begins_plain_statement(tokens) {
            statements.push(parse_plain_statement(alloc, tokens)?)?;
            continue;
        }
        let start = tokens.start();
        let attributes = parse_attributes(alloc, tokens)?;
        if tokens.is_at(TokenKind::KwContinuing) {
            let continuing = parse_continuing_part(alloc, tokens, attributes)?;
            tokens.expect(TokenKind::SymBraceRight)?;
            return Ok((statements, Some(continuing)));
        }
        statements.push(parse_statement_after(alloc, tokens, attributes, start)?)?;
    }
    Ok((statements, None))
}

/// What a `loop` does after each turn, after its attributes.
#[tactic(auto, using(crate::proofs::LoopParts::continuings))]
#[inline(never)]
#[cycle(statement)]
fn parse_continuing_part(
    alloc: Global,
    tokens: &mut Cursor,
    attributes: Attributes,
) -> Result<ContinuingStatement, Fault>
    ensures { Parses continuing_statement_view result tokens.old tokens.new
        (after_attributes continuing_statement_of
        (attributes_view attributes.items) (reader (further continuing_part))) }
{
    let body_attributes = parse_block_start_after(alloc, tokens, TokenKind::KwContinuing)?;
    let (statements, break_if) = parse_continuing_rest(alloc, tokens)?;
    Ok(ContinuingStatement {
        attributes,
        body: CompoundStatement {
            attributes: body_attributes,
            statements,
        },
        break_if,
    })
}

/// The statements of a `continuing`, its `break if` if there is one, and the `}` after them.
#[cycle(statement)]
fn parse_continuing_rest(
    alloc: Global,
    tokens: &mut Cursor,
) -> Result<(Vec<StatementNode>, Option<BreakIfStatement>), Fault>
    ensures { Parses (λ rest. (map statement_node_view rest.0.items, option_map break_if_view rest.1)) result tokens.old tokens.new (reader (further continuing_rest)) }
{
    let mut statements = Vec::new(alloc);
    'statements: while !tokens.eat(TokenKind::SymBraceRight) {
        if begins_plain_statement(tokens) {
            statements.push(parse_plain_statement(alloc, tokens)?)?;
            continue;
        }
        let start = tokens.start();
        let attributes = parse_attributes(alloc, tokens)?;
        if !tokens.eat(TokenKind::KwBreak) {
            statements.push(parse_statement_after(alloc, tokens, attributes, start)?)?;
            continue;
        }
        if !tokens.eat(TokenKind::SymSemicolon) {
            let break_if = parse_break_if_rest(alloc, tokens, attributes)?;
            return Ok((statements, Some(break_if)));
        }
        statements.push(break_node(alloc, attributes, tokens.span_from(start))?)?;
    }
    Ok((statements, None))
}

/// Reads a `while`, after its attributes.
#[tactic(auto, using(crate::proofs::LoopParts::whiles))]
#[inline(never)]
#[cycle(statement)]
pub fn parse_while_part(
    alloc: Global,
    tokens: &mut Cursor,
    attributes: Attributes,
) -> Result<Statement, Fault>
    ensures { Parses statement_view result tokens.old tokens.new (after_attributes statement
        (attributes_view attributes.items) (reader (further while_part))) }
{
    let condition = parse_condition(alloc, tokens, TokenKind::KwWhile)?;
    let body = parse_compound_statement(alloc, tokens)?;
    Ok(Statement::While(WhileStatement {
        attributes,
        condition,
        body,
    }))
}

/// Reads a `for`, after its attributes.
#[tactic(auto, using(crate::proofs::LoopParts::fors))]
#[inline(never)]
#[cycle(statement)]
pub fn parse_for_part(
    alloc: Global,
    tokens: &mut Cursor,
    attributes: Attributes,
) -> Result<Statement, Fault>
    ensures { Parses statement_view result tokens.old tokens.new (after_attributes statement
        (attributes_view attributes.items) (reader (further for_part))) }
{
    let (initializer, condition, update) = parse_for_header(alloc, tokens)?;
    let body = parse_compound_statement(alloc, tokens)?;
    Ok(Statement::For(ForStatement {
        attributes,
        initializer,
        condition,
        update,
        body,
    }))
}
