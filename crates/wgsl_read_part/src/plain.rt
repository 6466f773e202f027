//! The statements that a `;` ends.
#![tactic(auto, unfolding(crate::proofs::Hints::definitions), using(crate::proofs::Hints::lemmas))]

ghost use Rattle.std.specs.Prelude.{◌≡◌, [], ◌∷◌};
ghost use Rattle.grammar.specs.States.{is_any};
ghost use Rattle.wgsl_model.specs.Tokens.ClassTable as class;
ghost use Rattle.wgsl_model.specs.Trees.Statements.{statement};
ghost use Rattle.wgsl_tree_attribute.specs.View.{attributes_view};
ghost use Rattle.wgsl_tree_statement.specs.View.{statement_view, statement_node_view};
ghost use Rattle.wgsl_theory_grammar.specs.Factored.{FactoredSymbol.further, Further.plain_statement, Further.ended_part};
ghost use Rattle.wgsl_theory_grammar.specs.Reader.{reader};
ghost use Rattle.wgsl_read_cursor.specs.Reading.{state, Parses};
ghost use Rattle.wgsl_read_attribute.specs.After.{after_attributes};
ghost use Rattle.wgsl_read_part.specs.Plain.{break_part_at, unplaced_plain_at, ended_kinds_at, begin_simple_part, assert_statement_at};

use std::alloc::Global;
use wgsl_lex_token::kind::TokenKind;
use wgsl_read_cursor::{Cursor, Expected, Fault};
use wgsl_read_simple::{
    begins_value_part, parse_assert_part, parse_continue, parse_discard, parse_local_part,
    parse_parenthesized_statement, parse_returning_part, parse_simple_part, parse_value_part,
};
use wgsl_span::Spanned;
use wgsl_tree_attribute::Attributes;
use wgsl_tree_simple::{BreakStatement, ConstAssert};
use wgsl_tree_statement::{Statement, StatementNode};

/// Returns whether the next token begins a statement that has no attributes: an empty one, or one
/// whose left side begins with `(`.
pub fn begins_plain_statement(tokens: &Cursor) -> bool
    ensures { result ≡ is_any (class.SymParenLeft ∷ (class.SymSemicolon ∷ [])) (state tokens.now) }
{
    tokens.is_at(TokenKind::SymParenLeft) || tokens.is_at(TokenKind::SymSemicolon)
}

/// Reads a statement that has no attributes, with its `;`.
#[inline(never)]
pub fn parse_plain_statement(alloc: Global, tokens: &mut Cursor) -> Result<StatementNode, Fault>
    ensures { Parses statement_node_view result tokens.old tokens.new
        (reader (further plain_statement)) }
{
    let start = tokens.start();
    let statement = parse_unplaced_plain(alloc, tokens)?;
    Ok(Spanned::new(alloc, statement, tokens.span_from(start))?)
}

/// A statement that has no attributes, with its `;`, without its place.
fn parse_unplaced_plain(alloc: Global, tokens: &mut Cursor) -> Result<Statement, Fault>
    ensures { Parses statement_view result tokens.old tokens.new unplaced_plain_at }
{
    if tokens.eat(TokenKind::SymSemicolon) {
        return Ok(Statement::Void);
    }
    let statement = parse_parenthesized_statement(alloc, tokens)?;
    tokens.expect(TokenKind::SymSemicolon)?;
    Ok(statement)
}

/// Reads `break` after its attributes, with its `;`.
#[inline(never)]
pub fn parse_break_part(tokens: &mut Cursor, attributes: Attributes) -> Result<Statement, Fault>
    ensures { Parses statement_view result tokens.old tokens.new
        (after_attributes statement (attributes_view attributes.items) break_part_at) }
{
    tokens.expect(TokenKind::KwBreak)?;
    tokens.expect(TokenKind::SymSemicolon)?;
    Ok(Statement::Break(BreakStatement { attributes }))
}

/// Reads a statement other than `break` that a `;` ends, after its attributes, with its `;`.
/// `expected` is what could be in the place of a token that begins none.
#[inline(never)]
pub fn parse_ended_part(
    alloc: Global,
    tokens: &mut Cursor,
    attributes: Attributes,
    expected: Expected,
) -> Result<Statement, Fault>
    ensures { Parses statement_view result tokens.old tokens.new (after_attributes statement
        (attributes_view attributes.items) (reader (further ended_part))) }
{
    let statement = parse_ended_kind(alloc, tokens, attributes, expected)?;
    tokens.expect(TokenKind::SymSemicolon)?;
    Ok(statement)
}

/// A statement other than `break` that a `;` ends, after its attributes, without its `;`.
fn parse_ended_kind(
    alloc: Global,
    tokens: &mut Cursor,
    attributes: Attributes,
    expected: Expected,
) -> Result<Statement, Fault>
    ensures { Parses statement_view result tokens.old tokens.new
        (after_attributes statement (attributes_view attributes.items) ended_kinds_at) }
{
    if tokens.is_at(TokenKind::KwReturn) {
        return parse_returning_part(alloc, tokens, attributes);
    }
    if tokens.is_at(TokenKind::KwVar) {
        return parse_local_part(alloc, tokens, attributes);
    }
    if begins_value_part(tokens) {
        return parse_value_part(alloc, tokens, attributes);
    }
    if tokens.is_at(TokenKind::KwContinue) {
        return parse_continue(tokens, attributes);
    }
    if tokens.is_at(TokenKind::KwDiscard) {
        return parse_discard(tokens, attributes);
    }
    if begins_simple_part(tokens) {
        return parse_simple_part(alloc, tokens, attributes);
    }
    if tokens.is_at(TokenKind::KwConstAssert) {
        return parse_assert_statement(alloc, tokens, attributes);
    }
    Err(tokens.refuse(expected))
}

/// Whether the next token begins a call, an assignment, an increment or a decrement that may have attributes.
fn begins_simple_part(tokens: &Cursor) -> bool
    ensures { result ≡ is_any begin_simple_part (state tokens.now) }
{
    tokens.is_at(TokenKind::SymAnd)
        || tokens.is_at(TokenKind::SymStar)
        || tokens.is_at(TokenKind::SymUnderscore)
        || tokens.is_at(TokenKind::Ident)
        || tokens.is_at(TokenKind::ReservedWord)
}

/// A `const_assert` as a statement, after its attributes, without its `;`.
fn parse_assert_statement(
    alloc: Global,
    tokens: &mut Cursor,
    attributes: Attributes,
) -> Result<Statement, Fault>
    ensures { Parses statement_view result tokens.old tokens.new
        (after_attributes statement (attributes_view attributes.items) assert_statement_at) }
{
    let expression = parse_assert_part(alloc, tokens)?;
    Ok(Statement::ConstAssert(ConstAssert {
        attributes,
        expression,
    }))
}
