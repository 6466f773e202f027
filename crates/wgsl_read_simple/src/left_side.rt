//! Left sides of assignments.
#![tactic(auto, unfolding(crate::proofs::Hints::definitions), using(crate::proofs::Hints::lemmas))]

ghost use Rattle.std.specs.Prelude.{◌≡◌, [], ◌∷◌, IfOk};
ghost use Rattle.grammar.specs.States.{is_any};
ghost use Rattle.wgsl_model.specs.Tokens.ClassTable as class;
ghost use Rattle.wgsl_model.specs.Trees.Expressions.{expression_node};
ghost use Rattle.wgsl_model.specs.Grammar.ExpressionParts.{variable};
ghost use Rattle.wgsl_model.specs.Grammar.Symbols.{Symbol.lhs_expression};
ghost use Rattle.wgsl_span.specs.View.{span_view};
ghost use Rattle.wgsl_lex_token.specs.View.{class_of_kind};
ghost use Rattle.wgsl_tree_words.specs.View.{unary_operator_view};
ghost use Rattle.wgsl_tree_expression.specs.View.{ident_name, expression_node_view};
ghost use Rattle.wgsl_theory_grammar.specs.Factored.{FactoredSymbol.of, FactoredSymbol.further, Further.left_side_in_parentheses, Further.prefixed_left_side};
ghost use Rattle.wgsl_theory_grammar.specs.Reader.{reader};
ghost use Rattle.wgsl_read_cursor.specs.Reading.{state, Parses};
ghost use Rattle.wgsl_read_simple.specs.LeftSides.{left_name_at, parenthesized_left_side_at, unary_left_side_at};

use std::alloc::{AllocError, Global};
use wgsl_lex_token::kind::TokenKind;
use wgsl_read_cursor::{Cursor, Expected, Fault};
use wgsl_read_expression::{parse_components, parse_ident};
use wgsl_span::{Span, Spanned};
use wgsl_tree_expression::{
    Expression, ExpressionNode, Ident, ParenthesizedExpression, TypeExpression, UnaryExpression,
};
use wgsl_tree_words::UnaryOperator;

/// What begins a left side.
const LEFT_SIDE: Expected = Expected::OneOf(&[
    TokenKind::SymAnd,
    TokenKind::SymParenLeft,
    TokenKind::SymStar,
    TokenKind::Ident,
]);

/// Returns whether the next token is a name, or a reserved word in the place of one.
pub fn begins_name(tokens: &Cursor) -> bool
    ensures { result ≡ is_any (class.Ident ∷ (class.ReservedWord ∷ [])) (state tokens.now) }
{
    tokens.is_at(TokenKind::Ident) || tokens.is_at(TokenKind::ReservedWord)
}

/// Reads a left side: a name with its components, one after `*` or `&`, or one in parentheses.
#[cycle(left_side)]
pub fn parse_lhs_expression(alloc: Global, tokens: &mut Cursor) -> Result<ExpressionNode, Fault>
    ensures { Parses expression_node_view result tokens.old tokens.new
        (reader (of lhs_expression)) }
{
    if begins_name(tokens) {
        let name = parse_left_name(alloc, tokens)?;
        return parse_components(alloc, tokens, name);
    }
    if begins_prefixed_left_side(tokens) {
        return parse_prefixed_left_side(alloc, tokens);
    }
    if tokens.is_at(TokenKind::SymParenLeft) {
        return parse_left_side_in_parentheses(alloc, tokens);
    }
    Err(tokens.refuse(LEFT_SIDE))
}

/// Returns whether the next token is `*` or `&`.
pub fn begins_prefixed_left_side(tokens: &Cursor) -> bool
    ensures { result ≡ is_any (class.SymAnd ∷ (class.SymStar ∷ [])) (state tokens.now) }
{
    tokens.is_at(TokenKind::SymAnd) || tokens.is_at(TokenKind::SymStar)
}

/// A name.
fn parse_left_name(alloc: Global, tokens: &mut Cursor) -> Result<ExpressionNode, Fault>
    ensures { Parses expression_node_view result tokens.old tokens.new left_name_at }
{
    let start = tokens.start();
    let ident = parse_ident(tokens)?;
    Ok(left_name(alloc, ident, tokens.span_from(start))?)
}

/// Returns a name as a left side.
pub fn left_name(alloc: Global, ident: Ident, span: Span) -> Result<ExpressionNode, AllocError>
    ensures { IfOk result (λ made. expression_node_view made
        ≡ expression_node (variable (ident_name ident)) (span_view span)) }
{
    let variable = Expression::TypeOrIdentifier(TypeExpression {
        ident,
        template_args: None,
    });
    Spanned::new(alloc, variable, span)
}

/// Reads a left side in parentheses, with its components.
#[cycle(left_side)]
pub fn parse_left_side_in_parentheses(
    alloc: Global,
    tokens: &mut Cursor,
) -> Result<ExpressionNode, Fault>
    ensures { Parses expression_node_view result tokens.old tokens.new
        (reader (further left_side_in_parentheses)) }
{
    let base = parse_parenthesized_left_side(alloc, tokens)?;
    parse_components(alloc, tokens, base)
}

/// Reads a left side that begins with `*` or `&`.
#[cycle(left_side)]
pub fn parse_prefixed_left_side(alloc: Global, tokens: &mut Cursor) -> Result<ExpressionNode, Fault>
    ensures { Parses expression_node_view result tokens.old tokens.new
        (reader (further prefixed_left_side)) }
{
    if tokens.is_at(TokenKind::SymStar) {
        return parse_unary_left_side(
            alloc,
            tokens,
            TokenKind::SymStar,
            UnaryOperator::Indirection,
        );
    }
    parse_unary_left_side(alloc, tokens, TokenKind::SymAnd, UnaryOperator::AddressOf)
}

#[cycle(left_side)]
fn parse_parenthesized_left_side(
    alloc: Global,
    tokens: &mut Cursor,
) -> Result<ExpressionNode, Fault>
    ensures { Parses expression_node_view result tokens.old tokens.new parenthesized_left_side_at }
{
    let start = tokens.start();
    tokens.expect(TokenKind::SymParenLeft)?;
    tokens.go_deeper()?;
    let expression = parse_lhs_expression(alloc, tokens)?;
    tokens.come_back();
    tokens.expect(TokenKind::SymParenRight)?;
    let parenthesized = Expression::Parenthesized(ParenthesizedExpression { expression });
    Ok(Spanned::new(alloc, parenthesized, tokens.span_from(start))?)
}

/// An operator, by the kind of its token, and its operand.
#[cycle(left_side)]
fn parse_unary_left_side(
    alloc: Global,
    tokens: &mut Cursor,
    kind: TokenKind,
    operator: UnaryOperator,
) -> Result<ExpressionNode, Fault>
    ensures { Parses expression_node_view result tokens.old tokens.new
        (unary_left_side_at (class_of_kind kind) (unary_operator_view operator)) }
{
    let start = tokens.start();
    tokens.expect(kind)?;
    tokens.go_deeper()?;
    let operand = parse_lhs_expression(alloc, tokens)?;
    tokens.come_back();
    let unary = Expression::Unary(UnaryExpression { operator, operand });
    Ok(Spanned::new(alloc, unary, tokens.span_from(start))?)
}
