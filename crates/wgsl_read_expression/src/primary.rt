//! Primary expressions and their components.
#![tactic(auto, unfolding(crate::proofs::Hints::definitions), using(crate::proofs::Hints::lemmas))]

ghost use Rattle.std.specs.Prelude.{◌≡◌, [], ◌∷◌};
ghost use Rattle.grammar.specs.States.{is_any};
ghost use Rattle.wgsl_model.specs.Tokens.ClassTable.{SymBracketLeft, SymPeriod};
ghost use Rattle.wgsl_model.specs.Grammar.Symbols.{Symbol.primary_expression, Symbol.singular_expression};
ghost use Rattle.wgsl_theory_grammar.specs.Factored.{FactoredSymbol.of, FactoredSymbol.further, Further.components};
ghost use Rattle.wgsl_theory_grammar.specs.Reader.{reader};
ghost use Rattle.wgsl_tree_expression.specs.View.{expression_view, expression_node_view};
ghost use Rattle.wgsl_read_cursor.specs.Reading.{state, Parses, ParsesNullable};
ghost use Rattle.wgsl_read_expression.specs.Growing.{read_growth};
ghost use Rattle.wgsl_read_expression.specs.Rules.{primary_at, call_or_type_at, parenthesized_expression_at, component_after};

use crate::arguments::parse_arguments;
use crate::expression::parse_expression;
use crate::nodes::{call, indexing, named_component, parenthesized};
use crate::terminals::{parse_ident, parse_literal};
use crate::types::parse_type_specifier;
use std::alloc::Global;
use wgsl_lex_token::kind::TokenKind;
use wgsl_read_cursor::{Cursor, Expected, Fault};
use wgsl_span::Spanned;
use wgsl_tree_expression::{Expression, ExpressionNode};

/// Reads a primary expression and its components.
#[cycle(expression)]
pub fn parse_singular_expression(
    alloc: Global,
    tokens: &mut Cursor,
) -> Result<ExpressionNode, Fault>
    ensures { Parses expression_node_view result tokens.old tokens.new
        (reader (of singular_expression)) }
{
    let primary = parse_primary_expression(alloc, tokens)?;
    parse_components(alloc, tokens, primary)
}

#[cycle(expression)]
fn parse_primary_expression(alloc: Global, tokens: &mut Cursor) -> Result<ExpressionNode, Fault>
    ensures { Parses expression_node_view result tokens.old tokens.new
        (reader (of primary_expression)) }
{
    let start = tokens.start();
    let primary = parse_primary(alloc, tokens)?;
    Ok(Spanned::new(alloc, primary, tokens.span_from(start))?)
}

/// A primary expression, without its place.
#[cycle(expression)]
fn parse_primary(alloc: Global, tokens: &mut Cursor) -> Result<Expression, Fault>
    ensures { Parses expression_view result tokens.old tokens.new primary_at }
{
    if tokens.is_at(TokenKind::Ident) || tokens.is_at(TokenKind::ReservedWord) {
        return parse_call_or_type(alloc, tokens);
    }
    if tokens.is_at(TokenKind::SymParenLeft) {
        return parse_parenthesized(alloc, tokens);
    }
    let literal = parse_literal(alloc, tokens, Expected::EXPRESSION)?;
    Ok(Expression::Literal(literal))
}

/// A call where arguments follow the type, else the type or identifier alone.
#[cycle(expression)]
fn parse_call_or_type(alloc: Global, tokens: &mut Cursor) -> Result<Expression, Fault>
    ensures { Parses expression_view result tokens.old tokens.new call_or_type_at }
{
    let ty = parse_type_specifier(alloc, tokens)?;
    if !tokens.is_at(TokenKind::SymParenLeft) {
        return Ok(Expression::TypeOrIdentifier(ty));
    }
    let arguments = parse_arguments(alloc, tokens)?;
    Ok(call(ty, arguments))
}

#[cycle(expression)]
fn parse_parenthesized(alloc: Global, tokens: &mut Cursor) -> Result<Expression, Fault>
    ensures { Parses expression_view result tokens.old tokens.new parenthesized_expression_at }
{
    tokens.expect(TokenKind::SymParenLeft)?;
    let expression = parse_expression(alloc, tokens)?;
    tokens.expect(TokenKind::SymParenRight)?;
    Ok(parenthesized(expression))
}

/// Reads the components after a base, none too.
#[cycle(expression)]
pub fn parse_components(
    alloc: Global,
    tokens: &mut Cursor,
    base: ExpressionNode,
) -> Result<ExpressionNode, Fault>
    ensures { ParsesNullable expression_node_view result tokens.old tokens.new
        (read_growth (expression_node_view base) (reader (further components))) }
{
    let mut base = base;
    'components: while begins_component(tokens) {
        base = parse_component(alloc, tokens, base)?;
    }
    Ok(base)
}

/// Whether the next token begins a component.
fn begins_component(tokens: &Cursor) -> bool
    ensures { result ≡ is_any (SymBracketLeft ∷ SymPeriod ∷ []) (state tokens.now) }
{
    tokens.is_at(TokenKind::SymBracketLeft) || tokens.is_at(TokenKind::SymPeriod)
}

/// A component after a base.
#[cycle(expression)]
fn parse_component(
    alloc: Global,
    tokens: &mut Cursor,
    base: ExpressionNode,
) -> Result<ExpressionNode, Fault>
    ensures { Parses expression_node_view result tokens.old tokens.new
        (component_after (expression_node_view base)) }
{
    let start = base.span().start;
    if tokens.eat(TokenKind::SymBracketLeft) {
        let index = parse_expression(alloc, tokens)?;
        tokens.expect(TokenKind::SymBracketRight)?;
        let span = tokens.span_from(start);
        return Ok(Spanned::new(alloc, indexing(base, index), span)?);
    }
    tokens.expect(TokenKind::SymPeriod)?;
    let component = parse_ident(tokens)?;
    let span = tokens.span_from(start);
    Ok(Spanned::new(alloc, named_component(base, component), span)?)
}
