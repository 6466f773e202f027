//! Declarations of values, `return`, and the statements of one word or one expression.
#![tactic(auto, unfolding(crate::proofs::Hints::definitions), using(crate::proofs::Hints::lemmas))]

ghost use Rattle.std.specs.Prelude.{◌≡◌, [], ◌∷◌, option_map};
ghost use Rattle.grammar.specs.States.{is_any};
ghost use Rattle.wgsl_model.specs.Tokens.ClassTable as class;
ghost use Rattle.wgsl_model.specs.Trees.Statements as plain;
ghost use Rattle.wgsl_model.specs.Trees.Statements.{statement, assert_of};
ghost use Rattle.wgsl_tree_expression.specs.View.{expression_node_view};
ghost use Rattle.wgsl_tree_attribute.specs.View.{attributes_view};
ghost use Rattle.wgsl_tree_simple.specs.View.{declaration_kind_view};
ghost use Rattle.wgsl_tree_statement.specs.View.{statement_view};
ghost use Rattle.wgsl_theory_grammar.specs.Factored.{FactoredSymbol.further, Further.returning_part, Further.local_part, Further.value_part, Further.assert_part};
ghost use Rattle.wgsl_theory_grammar.specs.Tables.{begin_expressions};
ghost use Rattle.wgsl_theory_grammar.specs.Reader.{reader};
ghost use Rattle.wgsl_read_cursor.specs.Reading.{state, Parses, ParsesNullable};
ghost use Rattle.wgsl_read_attribute.specs.After.{after_attributes};
ghost use Rattle.wgsl_read_simple.specs.Values.{maybe_expression_at, value_kind_at, word_at};

use crate::{parse_initializer, parse_maybe_initializer, parse_typed_ident, parse_var_kind};
use std::alloc::Global;
use wgsl_lex_token::kind::TokenKind;
use wgsl_read_cursor::{Cursor, Expected, Fault};
use wgsl_read_expression::parse_expression;
use wgsl_tree_attribute::Attributes;
use wgsl_tree_expression::ExpressionNode;
use wgsl_tree_simple::{
    ContinueStatement, Declaration, DeclarationKind, DiscardStatement, ReturnStatement,
};
use wgsl_tree_statement::Statement;

/// What begins the declaration of a value that does not vary.
const VALUE_PART: Expected = Expected::OneOf(&[TokenKind::KwConst, TokenKind::KwLet]);

/// Reads `return` after its attributes, with a value if there is one, without its `;`.
pub fn parse_returning_part(
    alloc: Global,
    tokens: &mut Cursor,
    attributes: Attributes,
) -> Result<Statement, Fault>
    ensures { Parses statement_view result tokens.old tokens.new (after_attributes statement
        (attributes_view attributes.items) (reader (further returning_part))) }
{
    tokens.expect(TokenKind::KwReturn)?;
    let expression = parse_maybe_expression(alloc, tokens)?;
    Ok(Statement::Return(ReturnStatement {
        attributes,
        expression,
    }))
}

/// An expression, or none.
fn parse_maybe_expression(
    alloc: Global,
    tokens: &mut Cursor,
) -> Result<Option<ExpressionNode>, Fault>
    ensures { ParsesNullable
        (option_map expression_node_view) result tokens.old tokens.new maybe_expression_at }
{
    if !begins_expression(tokens) {
        return Ok(None);
    }
    Ok(Some(parse_expression(alloc, tokens)?))
}

/// Whether the next token begins an expression.
fn begins_expression(tokens: &Cursor) -> bool
    ensures { result ≡ is_any begin_expressions (state tokens.now) }
{
    tokens.is_at(TokenKind::SymAnd)
        || tokens.is_at(TokenKind::SymBang)
        || tokens.is_at(TokenKind::SymMinus)
        || tokens.is_at(TokenKind::SymParenLeft)
        || tokens.is_at(TokenKind::SymStar)
        || tokens.is_at(TokenKind::SymTilde)
        || tokens.is_at(TokenKind::KwFalse)
        || tokens.is_at(TokenKind::KwTrue)
        || tokens.is_at(TokenKind::Ident)
        || tokens.is_at(TokenKind::ReservedWord)
        || tokens.is_at(TokenKind::AbstractInt)
        || tokens.is_at(TokenKind::I32)
        || tokens.is_at(TokenKind::U32)
        || tokens.is_at(TokenKind::AbstractFloat)
        || tokens.is_at(TokenKind::F32)
        || tokens.is_at(TokenKind::F16)
}

/// Reads a `var` after its attributes, without its `;`.
pub fn parse_local_part(
    alloc: Global,
    tokens: &mut Cursor,
    attributes: Attributes,
) -> Result<Statement, Fault>
    ensures { Parses statement_view result tokens.old tokens.new (after_attributes statement
        (attributes_view attributes.items) (reader (further local_part))) }
{
    let kind = parse_var_kind(alloc, tokens)?;
    let (ident, ty) = parse_typed_ident(alloc, tokens)?;
    let initializer = parse_maybe_initializer(alloc, tokens)?;
    Ok(Statement::Declaration(Declaration {
        attributes,
        kind,
        ident,
        ty,
        initializer,
    }))
}

/// Reads a `let` or `const` after its attributes, without its `;`.
pub fn parse_value_part(
    alloc: Global,
    tokens: &mut Cursor,
    attributes: Attributes,
) -> Result<Statement, Fault>
    ensures { Parses statement_view result tokens.old tokens.new (after_attributes statement
        (attributes_view attributes.items) (reader (further value_part))) }
{
    let kind = parse_value_kind(tokens)?;
    let (ident, ty) = parse_typed_ident(alloc, tokens)?;
    let initializer = parse_initializer(alloc, tokens)?;
    Ok(Statement::Declaration(Declaration {
        attributes,
        kind,
        ident,
        ty,
        initializer: Some(initializer),
    }))
}

/// Returns whether the next token is `let` or `const`.
pub fn begins_value_part(tokens: &Cursor) -> bool
    ensures { result ≡ is_any (class.KwConst ∷ (class.KwLet ∷ [])) (state tokens.now) }
{
    tokens.is_at(TokenKind::KwConst) || tokens.is_at(TokenKind::KwLet)
}

/// `let` or `const`.
fn parse_value_kind(tokens: &mut Cursor) -> Result<DeclarationKind, Fault>
    ensures { Parses declaration_kind_view result tokens.old tokens.new value_kind_at }
{
    if tokens.eat(TokenKind::KwLet) {
        return Ok(DeclarationKind::Let);
    }
    if tokens.eat(TokenKind::KwConst) {
        return Ok(DeclarationKind::Const);
    }
    Err(tokens.refuse(VALUE_PART))
}

/// Reads `continue` after its attributes, without its `;`.
pub fn parse_continue(tokens: &mut Cursor, attributes: Attributes) -> Result<Statement, Fault>
    ensures { Parses statement_view result tokens.old tokens.new (after_attributes statement
        (attributes_view attributes.items) (word_at class.KwContinue plain.continue_statement)) }
{
    tokens.expect(TokenKind::KwContinue)?;
    Ok(Statement::Continue(ContinueStatement { attributes }))
}

/// Reads `discard` after its attributes, without its `;`.
pub fn parse_discard(tokens: &mut Cursor, attributes: Attributes) -> Result<Statement, Fault>
    ensures { Parses statement_view result tokens.old tokens.new (after_attributes statement
        (attributes_view attributes.items) (word_at class.KwDiscard plain.discard_statement)) }
{
    tokens.expect(TokenKind::KwDiscard)?;
    Ok(Statement::Discard(DiscardStatement { attributes }))
}

/// Reads `const_assert` and its expression, without its `;`.
pub fn parse_assert_part(alloc: Global, tokens: &mut Cursor) -> Result<ExpressionNode, Fault>
    ensures { Parses
        (λ expression. assert_of (expression_node_view expression)) result tokens.old tokens.new
        (reader (further assert_part)) }
{
    tokens.expect(TokenKind::KwConstAssert)?;
    parse_expression(alloc, tokens)
}
