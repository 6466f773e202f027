//! `break` and `break if` in a `continuing`.
#![tactic(auto, unfolding(crate::proofs::Hints::definitions), using(crate::proofs::Hints::lemmas))]

ghost use Rattle.std.specs.Prelude.{◌≡◌, IfOk};
ghost use Rattle.wgsl_model.specs.Trees.Statements as plain;
ghost use Rattle.wgsl_model.specs.Grammar.StatementParts.{placed_statement};
ghost use Rattle.wgsl_span.specs.View.{span_view};
ghost use Rattle.wgsl_tree_attribute.specs.View.{attributes_view};
ghost use Rattle.wgsl_tree_simple.specs.View.{break_if_view};
ghost use Rattle.wgsl_tree_statement.specs.View.{statement_node_view};
ghost use Rattle.wgsl_read_cursor.specs.Reading.{Parses};
ghost use Rattle.wgsl_read_part.specs.Plain.{break_if_rest_at};

use std::alloc::{AllocError, Global};
use wgsl_lex_token::kind::TokenKind;
use wgsl_read_cursor::{Cursor, Fault};
use wgsl_read_expression::parse_expression;
use wgsl_span::{Span, Spanned};
use wgsl_tree_attribute::Attributes;
use wgsl_tree_simple::{BreakIfStatement, BreakStatement};
use wgsl_tree_statement::{Statement, StatementNode};

/// Returns a `break` with its attributes, that is at a span.
pub fn break_node(
    alloc: Global,
    attributes: Attributes,
    span: Span,
) -> Result<StatementNode, AllocError>
    ensures { IfOk result (λ node. statement_node_view node ≡ placed_statement (plain.statement
        (attributes_view attributes.items) plain.break_statement) (span_view span)) }
{
    Spanned::new(alloc, Statement::Break(BreakStatement { attributes }), span)
}

/// Reads a `break if` with its attributes, after its `break`, and the `}` after it.
pub fn parse_break_if_rest(
    alloc: Global,
    tokens: &mut Cursor,
    attributes: Attributes,
) -> Result<BreakIfStatement, Fault>
    ensures { Parses break_if_view result tokens.old tokens.new
        (break_if_rest_at (attributes_view attributes.items)) }
{
    tokens.expect(TokenKind::KwIf)?;
    let expression = parse_expression(alloc, tokens)?;
    tokens.expect(TokenKind::SymSemicolon)?;
    tokens.expect(TokenKind::SymBraceRight)?;
    Ok(BreakIfStatement {
        attributes,
        expression,
    })
}
