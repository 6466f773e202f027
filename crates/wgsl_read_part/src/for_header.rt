//! The header of `for`.
#![tactic(auto, unfolding(crate::proofs::Hints::definitions), using(crate::proofs::Hints::lemmas))]

ghost use Rattle.std.specs.Prelude.{option_map};
ghost use Rattle.wgsl_model.specs.Trees.Statements.{statement};
ghost use Rattle.wgsl_model.specs.Grammar.Symbols.{Symbol.for_init, Symbol.for_update};
ghost use Rattle.wgsl_tree_expression.specs.View.{expression_node_view};
ghost use Rattle.wgsl_tree_attribute.specs.View.{attributes_view};
ghost use Rattle.wgsl_tree_statement.specs.View.{statement_view, statement_node_view};
ghost use Rattle.wgsl_theory_grammar.specs.Factored.{FactoredSymbol.of, FactoredSymbol.further, Further.init_part, Further.condition_part, Further.update_part};
ghost use Rattle.wgsl_theory_grammar.specs.Reader.{reader};
ghost use Rattle.wgsl_read_cursor.specs.Reading.{Parses};
ghost use Rattle.wgsl_read_attribute.specs.After.{after_attributes};
ghost use Rattle.wgsl_read_part.specs.Heads.{for_header_at};
ghost use Rattle.wgsl_read_part.specs.Plain.{init_statement_at, init_kinds_at, update_statement_at};

use std::alloc::Global;
use wgsl_lex_token::kind::TokenKind;
use wgsl_read_attribute::parse_attributes;
use wgsl_read_cursor::{Cursor, Fault};
use wgsl_read_expression::parse_expression;
use wgsl_read_simple::{
    begins_value_part, parse_local_part, parse_parenthesized_statement, parse_simple_part,
    parse_value_part,
};
use wgsl_span::Spanned;
use wgsl_tree_attribute::Attributes;
use wgsl_tree_expression::ExpressionNode;
use wgsl_tree_statement::{Statement, StatementNode};

/// The statement before the first turn of a `for`, its condition, and the statement after each
/// turn, each where there is one.
pub type ForHeader = (
    Option<StatementNode>,
    Option<ExpressionNode>,
    Option<StatementNode>,
);

/// Reads `for` and its header in parentheses.
#[inline(never)]
pub fn parse_for_header(alloc: Global, tokens: &mut Cursor) -> Result<ForHeader, Fault>
    ensures { Parses (λ header. (option_map statement_node_view header.0, (option_map expression_node_view header.1, option_map statement_node_view header.2))) result tokens.old tokens.new for_header_at }
{
    tokens.expect(TokenKind::KwFor)?;
    tokens.expect(TokenKind::SymParenLeft)?;
    let initializer = parse_init_part(alloc, tokens)?;
    let condition = parse_condition_part(alloc, tokens)?;
    let update = parse_update_part(alloc, tokens)?;
    Ok((initializer, condition, update))
}

/// What is done before the first turn, if anything, and its `;`.
fn parse_init_part(alloc: Global, tokens: &mut Cursor) -> Result<Option<StatementNode>, Fault>
    ensures { Parses
        (option_map statement_node_view) result tokens.old tokens.new (reader (further init_part)) }
{
    if tokens.eat(TokenKind::SymSemicolon) {
        return Ok(None);
    }
    let initializer = parse_for_init(alloc, tokens)?;
    tokens.expect(TokenKind::SymSemicolon)?;
    Ok(Some(initializer))
}

/// What is done before the first turn.
fn parse_for_init(alloc: Global, tokens: &mut Cursor) -> Result<StatementNode, Fault>
    ensures { Parses statement_node_view result tokens.old tokens.new (reader (of for_init)) }
{
    let start = tokens.start();
    let statement = parse_init_statement(alloc, tokens)?;
    Ok(Spanned::new(alloc, statement, tokens.span_from(start))?)
}

/// What is done before the first turn, without its place.
fn parse_init_statement(alloc: Global, tokens: &mut Cursor) -> Result<Statement, Fault>
    ensures { Parses statement_view result tokens.old tokens.new init_statement_at }
{
    if tokens.is_at(TokenKind::SymParenLeft) {
        return parse_parenthesized_statement(alloc, tokens);
    }
    let attributes = parse_attributes(alloc, tokens)?;
    parse_init_kind(alloc, tokens, attributes)
}

/// What is done before the first turn, after its attributes.
fn parse_init_kind(
    alloc: Global,
    tokens: &mut Cursor,
    attributes: Attributes,
) -> Result<Statement, Fault>
    ensures { Parses statement_view result tokens.old tokens.new
        (after_attributes statement (attributes_view attributes.items) init_kinds_at) }
{
    if tokens.is_at(TokenKind::KwVar) {
        return parse_local_part(alloc, tokens, attributes);
    }
    if begins_value_part(tokens) {
        return parse_value_part(alloc, tokens, attributes);
    }
    parse_simple_part(alloc, tokens, attributes)
}

/// The condition, if there is one, and its `;`.
fn parse_condition_part(alloc: Global, tokens: &mut Cursor) -> Result<Option<ExpressionNode>, Fault>
    ensures { Parses (option_map expression_node_view) result tokens.old tokens.new
        (reader (further condition_part)) }
{
    if tokens.eat(TokenKind::SymSemicolon) {
        return Ok(None);
    }
    let condition = parse_expression(alloc, tokens)?;
    tokens.expect(TokenKind::SymSemicolon)?;
    Ok(Some(condition))
}

/// What is done after each turn, if anything, and the `)`.
fn parse_update_part(alloc: Global, tokens: &mut Cursor) -> Result<Option<StatementNode>, Fault>
    ensures { Parses (option_map statement_node_view) result tokens.old tokens.new
        (reader (further update_part)) }
{
    if tokens.eat(TokenKind::SymParenRight) {
        return Ok(None);
    }
    let update = parse_for_update(alloc, tokens)?;
    tokens.expect(TokenKind::SymParenRight)?;
    Ok(Some(update))
}

/// What is done after each turn.
fn parse_for_update(alloc: Global, tokens: &mut Cursor) -> Result<StatementNode, Fault>
    ensures { Parses statement_node_view result tokens.old tokens.new (reader (of for_update)) }
{
    let start = tokens.start();
    let update = parse_update_statement(alloc, tokens)?;
    Ok(Spanned::new(alloc, update, tokens.span_from(start))?)
}

/// What is done after each turn, without its place.
fn parse_update_statement(alloc: Global, tokens: &mut Cursor) -> Result<Statement, Fault>
    ensures { Parses statement_view result tokens.old tokens.new update_statement_at }
{
    if tokens.is_at(TokenKind::SymParenLeft) {
        return parse_parenthesized_statement(alloc, tokens);
    }
    let attributes = parse_attributes(alloc, tokens)?;
    parse_simple_part(alloc, tokens, attributes)
}
