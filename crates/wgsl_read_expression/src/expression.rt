//! Expressions, from comparisons to chains of one operator.
#![tactic(auto, unfolding(crate::proofs::Hints::definitions), using(crate::proofs::Hints::lemmas))]

ghost use Rattle.wgsl_model.specs.Grammar.Symbols.{Symbol.relational_expression, Symbol.expression};
ghost use Rattle.wgsl_theory_grammar.specs.Factored.{FactoredSymbol.of};
ghost use Rattle.wgsl_theory_grammar.specs.Reader.{reader};
ghost use Rattle.wgsl_lex_token.specs.View.{class_of_kind};
ghost use Rattle.wgsl_tree_words.specs.View.{binary_operator_view};
ghost use Rattle.wgsl_tree_expression.specs.View.{expression_node_view};
ghost use Rattle.wgsl_read_cursor.specs.Reading.{Parses, ParsesNullable};
ghost use Rattle.wgsl_read_expression.specs.Rules.{relation_after, bitwise_after, logical_after, logical_at, expression_after};

use crate::nodes::join;
use crate::operators::{is_at_operator, relational_operator};
use crate::sums::{parse_shift_expression, parse_sum_rest};
use crate::unary::parse_unary_expression;
use std::alloc::Global;
use wgsl_lex_token::kind::TokenKind;
use wgsl_read_cursor::{Cursor, Fault};
use wgsl_tree_expression::ExpressionNode;
use wgsl_tree_words::BinaryOperator;

/// Reads an expression.
#[cycle(expression)]
pub fn parse_expression(alloc: Global, tokens: &mut Cursor) -> Result<ExpressionNode, Fault>
    ensures { Parses expression_node_view result tokens.old tokens.new (reader (of expression)) }
{
    let left = parse_unary_expression(alloc, tokens)?;
    parse_expression_rest(alloc, tokens, left)
}

/// What makes an operand an expression.
#[cycle(expression)]
fn parse_expression_rest(
    alloc: Global,
    tokens: &mut Cursor,
    left: ExpressionNode,
) -> Result<ExpressionNode, Fault>
    ensures { ParsesNullable expression_node_view result tokens.old tokens.new
        (expression_after (expression_node_view left)) }
{
    if !is_at_operator(tokens) {
        return Ok(left);
    }
    if tokens.is_at(TokenKind::SymAnd) {
        return parse_bitwise_operands(
            alloc,
            tokens,
            left,
            TokenKind::SymAnd,
            BinaryOperator::BitwiseAnd,
        );
    }
    if tokens.is_at(TokenKind::SymOr) {
        return parse_bitwise_operands(
            alloc,
            tokens,
            left,
            TokenKind::SymOr,
            BinaryOperator::BitwiseOr,
        );
    }
    if tokens.is_at(TokenKind::SymXor) {
        return parse_bitwise_operands(
            alloc,
            tokens,
            left,
            TokenKind::SymXor,
            BinaryOperator::BitwiseXor,
        );
    }
    let sum = parse_sum_rest(alloc, tokens, left)?;
    let relation = parse_relation_rest(alloc, tokens, sum)?;
    parse_logical_rest(alloc, tokens, relation)
}

/// The operands after a first one with one bitwise operator between, none too.
#[cycle(expression)]
fn parse_bitwise_operands(
    alloc: Global,
    tokens: &mut Cursor,
    left: ExpressionNode,
    kind: TokenKind,
    operator: BinaryOperator,
) -> Result<ExpressionNode, Fault>
    ensures { ParsesNullable expression_node_view result tokens.old tokens.new (bitwise_after
        (class_of_kind kind) (binary_operator_view operator) (expression_node_view left)) }
{
    let mut left = left;
    'operands: while tokens.eat(kind) {
        let right = parse_unary_expression(alloc, tokens)?;
        left = join(alloc, left, operator, right)?;
    }
    Ok(left)
}

/// What makes an operand a comparison, or nothing.
#[cycle(expression)]
fn parse_relation_rest(
    alloc: Global,
    tokens: &mut Cursor,
    left: ExpressionNode,
) -> Result<ExpressionNode, Fault>
    ensures { ParsesNullable expression_node_view result tokens.old tokens.new
        (relation_after (expression_node_view left)) }
{
    let Some(operator) = relational_operator(tokens) else {
        return Ok(left);
    };
    let right = parse_shift_expression(alloc, tokens)?;
    Ok(join(alloc, left, operator, right)?)
}

/// The operands of `&&` or of `||` after a first one, none too.
#[cycle(expression)]
fn parse_logical_rest(
    alloc: Global,
    tokens: &mut Cursor,
    left: ExpressionNode,
) -> Result<ExpressionNode, Fault>
    ensures { ParsesNullable expression_node_view result tokens.old tokens.new
        (logical_at (expression_node_view left)) }
{
    if tokens.is_at(TokenKind::SymAndAnd) {
        return parse_logical_operands(
            alloc,
            tokens,
            left,
            TokenKind::SymAndAnd,
            BinaryOperator::ShortCircuitAnd,
        );
    }
    if tokens.is_at(TokenKind::SymOrOr) {
        return parse_logical_operands(
            alloc,
            tokens,
            left,
            TokenKind::SymOrOr,
            BinaryOperator::ShortCircuitOr,
        );
    }
    Ok(left)
}

/// The operands after a first one with one logical operator between, none too.
#[cycle(expression)]
fn parse_logical_operands(
    alloc: Global,
    tokens: &mut Cursor,
    left: ExpressionNode,
    kind: TokenKind,
    operator: BinaryOperator,
) -> Result<ExpressionNode, Fault>
    ensures { ParsesNullable expression_node_view result tokens.old tokens.new (logical_after
        (class_of_kind kind) (binary_operator_view operator) (expression_node_view left)) }
{
    let mut left = left;
    'operands: while tokens.eat(kind) {
        let right = parse_relational_expression(alloc, tokens)?;
        left = join(alloc, left, operator, right)?;
    }
    Ok(left)
}

/// A comparison or a sum.
#[cycle(expression)]
fn parse_relational_expression(alloc: Global, tokens: &mut Cursor) -> Result<ExpressionNode, Fault>
    ensures { Parses expression_node_view result tokens.old tokens.new
        (reader (of relational_expression)) }
{
    let left = parse_shift_expression(alloc, tokens)?;
    parse_relation_rest(alloc, tokens, left)
}
