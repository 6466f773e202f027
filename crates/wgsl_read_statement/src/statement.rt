//! Statements: which one is there.
#![tactic(auto, unfolding(crate::proofs::Hints::definitions), using(crate::proofs::Hints::lemmas))]

ghost use Rattle.std.specs.Prelude.{◌≡◌};
ghost use Rattle.grammar.specs.States.{is_any};
ghost use Rattle.wgsl_model.specs.Trees.Statements.{statement};
ghost use Rattle.wgsl_model.specs.Grammar.Symbols.{Symbol};
ghost use Rattle.wgsl_tree_attribute.specs.View.{attributes_view};
ghost use Rattle.wgsl_tree_statement.specs.View.{statement_view, statement_node_view};
ghost use Rattle.wgsl_theory_grammar.specs.Factored.{FactoredSymbol.of, FactoredSymbol.further, Further.braced_part};
ghost use Rattle.wgsl_theory_grammar.specs.Reader.{reader};
ghost use Rattle.wgsl_read_cursor.specs.Reading.{state, Parses};
ghost use Rattle.wgsl_read_attribute.specs.After.{after_attributes};
ghost use Rattle.wgsl_read_statement.specs.Statements.{begin_braced_part, statement_part_at, statement_after_at};

use crate::block::parse_block_part;
use crate::if_chain::parse_if_part;
use crate::loops::{parse_for_part, parse_loop_part, parse_while_part};
use crate::switch::parse_switch_part;
use std::alloc::Global;
use wgsl_lex_token::kind::TokenKind;
use wgsl_read_attribute::parse_attributes;
use wgsl_read_cursor::{Cursor, Expected, Fault};
use wgsl_read_part::{
    begins_plain_statement, parse_break_part, parse_ended_part, parse_plain_statement,
};
use wgsl_span::Spanned;
use wgsl_tree_attribute::Attributes;
use wgsl_tree_statement::{Statement, StatementNode};

/// What begins a statement.
const STATEMENT: Expected = Expected::OneOf(&[
    TokenKind::SymAnd,
    TokenKind::SymAttr,
    TokenKind::SymBraceLeft,
    TokenKind::SymParenLeft,
    TokenKind::SymSemicolon,
    TokenKind::SymStar,
    TokenKind::SymUnderscore,
    TokenKind::KwBreak,
    TokenKind::KwConst,
    TokenKind::KwConstAssert,
    TokenKind::KwContinue,
    TokenKind::KwDiscard,
    TokenKind::KwFor,
    TokenKind::KwIf,
    TokenKind::KwLet,
    TokenKind::KwLoop,
    TokenKind::KwReturn,
    TokenKind::KwSwitch,
    TokenKind::KwVar,
    TokenKind::KwWhile,
    TokenKind::Ident,
]);

/// What can be after attributes of a statement.
const ATTRIBUTED_STATEMENT: Expected = Expected::OneOf(&[
    TokenKind::SymAnd,
    TokenKind::SymAttr,
    TokenKind::SymBraceLeft,
    TokenKind::SymStar,
    TokenKind::SymUnderscore,
    TokenKind::KwBreak,
    TokenKind::KwConst,
    TokenKind::KwConstAssert,
    TokenKind::KwContinue,
    TokenKind::KwDiscard,
    TokenKind::KwFor,
    TokenKind::KwIf,
    TokenKind::KwLet,
    TokenKind::KwLoop,
    TokenKind::KwReturn,
    TokenKind::KwSwitch,
    TokenKind::KwVar,
    TokenKind::KwWhile,
    TokenKind::Ident,
]);

/// Reads a statement. What begins with `;` or `(` has no attributes.
#[cycle(statement)]
pub fn parse_statement(alloc: Global, tokens: &mut Cursor) -> Result<StatementNode, Fault>
    ensures { Parses statement_node_view result tokens.old tokens.new
        (reader (of Symbol.statement)) }
{
    if begins_plain_statement(tokens) {
        return parse_plain_statement(alloc, tokens);
    }
    let start = tokens.start();
    let attributes = parse_attributes(alloc, tokens)?;
    parse_statement_after(alloc, tokens, attributes, start)
}

/// Reads a statement after its attributes, and its place, which begins where they do. Each
/// statement inside another is read by this.
#[cycle(statement)]
pub fn parse_statement_after(
    alloc: Global,
    tokens: &mut Cursor,
    attributes: Attributes,
    start: usize,
) -> Result<StatementNode, Fault>
    ensures { Parses statement_node_view result tokens.old tokens.new
        (statement_after_at (attributes_view attributes.items) start) }
{
    tokens.go_deeper()?;
    let statement = parse_statement_part(alloc, tokens, attributes)?;
    tokens.come_back();
    Ok(Spanned::new(alloc, statement, tokens.span_from(start))?)
}

/// A statement from its first word on, after its attributes.
#[cycle(statement)]
fn parse_statement_part(
    alloc: Global,
    tokens: &mut Cursor,
    attributes: Attributes,
) -> Result<Statement, Fault>
    ensures { Parses statement_view result tokens.old tokens.new
        (after_attributes statement (attributes_view attributes.items) statement_part_at) }
{
    if tokens.is_at(TokenKind::KwBreak) {
        return parse_break_part(tokens, attributes);
    }
    if begins_braced_part(tokens) {
        return parse_braced_part(alloc, tokens, attributes);
    }
    let expected = expected_after(&attributes);
    parse_ended_part(alloc, tokens, attributes, expected)
}

/// What could be in the place of a token that begins no statement, after attributes.
fn expected_after(attributes: &Attributes) -> Expected {
    if attributes.is_empty() {
        STATEMENT
    } else {
        ATTRIBUTED_STATEMENT
    }
}

/// Whether the next token begins a statement that ends with a block.
fn begins_braced_part(tokens: &Cursor) -> bool
    ensures { result ≡ is_any begin_braced_part (state tokens.now) }
{
    tokens.is_at(TokenKind::SymBraceLeft)
        || tokens.is_at(TokenKind::KwFor)
        || tokens.is_at(TokenKind::KwIf)
        || tokens.is_at(TokenKind::KwLoop)
        || tokens.is_at(TokenKind::KwSwitch)
        || tokens.is_at(TokenKind::KwWhile)
}

/// A statement that ends with a block, after its attributes.
#[cycle(statement)]
fn parse_braced_part(
    alloc: Global,
    tokens: &mut Cursor,
    attributes: Attributes,
) -> Result<Statement, Fault>
    ensures { Parses statement_view result tokens.old tokens.new (after_attributes statement
        (attributes_view attributes.items) (reader (further braced_part))) }
{
    if tokens.is_at(TokenKind::KwIf) {
        return parse_if_part(alloc, tokens, attributes);
    }
    if tokens.is_at(TokenKind::KwSwitch) {
        return parse_switch_part(alloc, tokens, attributes);
    }
    if tokens.is_at(TokenKind::KwLoop) {
        return parse_loop_part(alloc, tokens, attributes);
    }
    if tokens.is_at(TokenKind::KwFor) {
        return parse_for_part(alloc, tokens, attributes);
    }
    if tokens.is_at(TokenKind::KwWhile) {
        return parse_while_part(alloc, tokens, attributes);
    }
    parse_block_part(alloc, tokens, attributes)
}
