//! Products, sums and shifts.
#![tactic(auto, unfolding(crate::proofs::Hints::definitions), using(crate::proofs::Hints::lemmas))]

ghost use Rattle.std.specs.Prelude.{◌≡◌, [], ◌∷◌};
ghost use Rattle.grammar.specs.States.{is_any};
ghost use Rattle.wgsl_model.specs.Tokens.ClassTable.{SymMinus, SymMinusMinus, SymPlus};
ghost use Rattle.wgsl_model.specs.Faults.Kinds.{next_place};
ghost use Rattle.wgsl_model.specs.Grammar.Symbols.{Symbol.multiplicative_expression, Symbol.negated_expression, Symbol.shift_expression};
ghost use Rattle.wgsl_theory_grammar.specs.Factored.{FactoredSymbol.of};
ghost use Rattle.wgsl_theory_grammar.specs.Reader.{reader};
ghost use Rattle.wgsl_tree_words.specs.View.{binary_operator_view};
ghost use Rattle.wgsl_tree_expression.specs.View.{expression_node_view};
ghost use Rattle.wgsl_read_cursor.specs.Reading.{state, Parses, ParsesNullable};
ghost use Rattle.wgsl_read_expression.specs.Rules.{factors_after, products_from, summand_at, summands_after, sum_after};

use crate::nodes::{binary, join, unary};
use crate::operators::{additive_operator, multiplicative_operator};
use crate::unary::parse_unary_expression;
use std::alloc::Global;
use wgsl_lex_token::kind::TokenKind;
use wgsl_read_cursor::{Cursor, Fault};
use wgsl_span::Spanned;
use wgsl_tree_expression::ExpressionNode;
use wgsl_tree_words::{BinaryOperator, UnaryOperator};

/// Reads a shift or a sum.
#[cycle(expression)]
pub fn parse_shift_expression(alloc: Global, tokens: &mut Cursor) -> Result<ExpressionNode, Fault>
    ensures { Parses expression_node_view result tokens.old tokens.new
        (reader (of shift_expression)) }
{
    let left = parse_unary_expression(alloc, tokens)?;
    parse_sum_rest(alloc, tokens, left)
}

/// Reads what makes an operand a shift, or a sum of products.
#[cycle(expression)]
pub fn parse_sum_rest(
    alloc: Global,
    tokens: &mut Cursor,
    left: ExpressionNode,
) -> Result<ExpressionNode, Fault>
    ensures { ParsesNullable expression_node_view result tokens.old tokens.new
        (sum_after (expression_node_view left)) }
{
    if tokens.eat(TokenKind::SymShiftLeft) {
        let right = parse_unary_expression(alloc, tokens)?;
        return Ok(join(alloc, left, BinaryOperator::ShiftLeft, right)?);
    }
    if tokens.eat(TokenKind::SymShiftRight) {
        let right = parse_unary_expression(alloc, tokens)?;
        return Ok(join(alloc, left, BinaryOperator::ShiftRight, right)?);
    }
    let product = parse_factors(alloc, tokens, left)?;
    parse_summands(alloc, tokens, product)
}

/// The factors after a first one, none too.
#[cycle(expression)]
fn parse_factors(
    alloc: Global,
    tokens: &mut Cursor,
    left: ExpressionNode,
) -> Result<ExpressionNode, Fault>
    ensures { ParsesNullable expression_node_view result tokens.old tokens.new
        (factors_after (expression_node_view left)) }
{
    let mut left = left;
    'factors: while let Some(operator) = multiplicative_operator(tokens) {
        let right = parse_unary_expression(alloc, tokens)?;
        left = join(alloc, left, operator, right)?;
    }
    Ok(left)
}

/// The summands after a first one, none too.
#[cycle(expression)]
fn parse_summands(
    alloc: Global,
    tokens: &mut Cursor,
    left: ExpressionNode,
) -> Result<ExpressionNode, Fault>
    ensures { ParsesNullable expression_node_view result tokens.old tokens.new
        (summands_after (expression_node_view left)) }
{
    let mut left = left;
    'summands: while begins_summand(tokens) {
        let (operator, right) = parse_summand(alloc, tokens)?;
        left = join(alloc, left, operator, right)?;
    }
    Ok(left)
}

/// Whether the next token begins a summand.
fn begins_summand(tokens: &Cursor) -> bool
    ensures { result ≡ is_any (SymPlus ∷ SymMinus ∷ SymMinusMinus ∷ []) (state tokens.now) }
{
    tokens.is_at(TokenKind::SymPlus)
        || tokens.is_at(TokenKind::SymMinus)
        || tokens.is_at(TokenKind::SymMinusMinus)
}

/// A summand with its operator; `--` subtracts a negation.
#[cycle(expression)]
fn parse_summand(
    alloc: Global,
    tokens: &mut Cursor,
) -> Result<(BinaryOperator, ExpressionNode), Fault>
    ensures { Parses (λ summand. (binary_operator_view summand.0, expression_node_view summand.1)) result tokens.old tokens.new summand_at }
{
    let Some(operator) = additive_operator(tokens) else {
        let negated = parse_negated_expression(alloc, tokens)?;
        return Ok((BinaryOperator::Subtraction, negated));
    };
    let product = parse_multiplicative_expression(alloc, tokens)?;
    Ok((operator, product))
}

/// A product.
#[cycle(expression)]
fn parse_multiplicative_expression(
    alloc: Global,
    tokens: &mut Cursor,
) -> Result<ExpressionNode, Fault>
    ensures { Parses expression_node_view result tokens.old tokens.new
        (reader (of multiplicative_expression)) }
{
    let start = tokens.start();
    let left = parse_unary_expression(alloc, tokens)?;
    parse_product_rest(alloc, tokens, start, left)
}

/// A product of the negation that the second minus of `--` begins.
#[cycle(expression)]
fn parse_negated_expression(alloc: Global, tokens: &mut Cursor) -> Result<ExpressionNode, Fault>
    ensures { Parses expression_node_view result tokens.old tokens.new
        (reader (of negated_expression)) }
{
    let start = next_place(tokens.start());
    tokens.expect(TokenKind::SymMinusMinus)?;
    let operand = parse_unary_expression(alloc, tokens)?;
    let negation = unary(UnaryOperator::Negation, operand);
    let left = Spanned::new(alloc, negation, tokens.span_from(start))?;
    parse_product_rest(alloc, tokens, start, left)
}

/// The place after a place; the greatest place is after itself.
fn next_place(place: usize) -> usize
    ensures { result ≡ next_place place }
{
    place.saturating_add(1)
}

/// The factors after a first one, of a product that starts at a place.
#[cycle(expression)]
fn parse_product_rest(
    alloc: Global,
    tokens: &mut Cursor,
    start: usize,
    left: ExpressionNode,
) -> Result<ExpressionNode, Fault>
    ensures { ParsesNullable expression_node_view result tokens.old tokens.new
        (products_from start (expression_node_view left)) }
{
    let mut left = left;
    'factors: while let Some(operator) = multiplicative_operator(tokens) {
        let right = parse_unary_expression(alloc, tokens)?;
        let span = tokens.span_from(start);
        left = Spanned::new(alloc, binary(left, operator, right), span)?;
    }
    Ok(left)
}
