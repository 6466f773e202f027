//! The value that a declaration begins with.
#![tactic(auto, unfolding(crate::proofs::Parts::definitions), using(crate::proofs::Parts::lemmas))]

ghost use Rattle.std.specs.Prelude.{option_map};
ghost use Rattle.wgsl_tree_expression.specs.View.{expression_node_view};
ghost use Rattle.wgsl_read_cursor.specs.Reading.{Parses, ParsesNullable};
ghost use Rattle.wgsl_read_simple.specs.Initializers.{initializer_at, maybe_initializer_at};

use std::alloc::Global;
use wgsl_lex_token::kind::TokenKind;
use wgsl_read_cursor::{Cursor, Fault};
use wgsl_read_expression::parse_expression;
use wgsl_tree_expression::ExpressionNode;

/// Reads `=` and a value.
pub fn parse_initializer(alloc: Global, tokens: &mut Cursor) -> Result<ExpressionNode, Fault>
    ensures { Parses expression_node_view result tokens.old tokens.new initializer_at }
{
    tokens.expect(TokenKind::SymEqual)?;
    parse_expression(alloc, tokens)
}

/// Reads `=` and a value, or nothing.
pub fn parse_maybe_initializer(
    alloc: Global,
    tokens: &mut Cursor,
) -> Result<Option<ExpressionNode>, Fault>
    ensures { ParsesNullable
        (option_map expression_node_view) result tokens.old tokens.new maybe_initializer_at }
{
    if !tokens.is_at(TokenKind::SymEqual) {
        return Ok(None);
    }
    Ok(Some(parse_initializer(alloc, tokens)?))
}
