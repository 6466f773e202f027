//! What is before a block or between its attributes and its statements.
#![tactic(auto, unfolding(crate::proofs::Hints::definitions), using(crate::proofs::Hints::lemmas))]

ghost use Rattle.wgsl_lex_token.specs.View.{class_of_kind};
ghost use Rattle.wgsl_tree_expression.specs.View.{expression_node_view};
ghost use Rattle.wgsl_tree_attribute.specs.View.{attributes_view};
ghost use Rattle.wgsl_read_cursor.specs.Reading.{Parses};
ghost use Rattle.wgsl_read_part.specs.Heads.{condition_at, block_start_at, block_start_after_at, switch_head_at};

use std::alloc::Global;
use wgsl_lex_token::kind::TokenKind;
use wgsl_read_attribute::parse_attributes;
use wgsl_read_cursor::{Cursor, Fault};
use wgsl_read_expression::parse_expression;
use wgsl_tree_attribute::Attributes;
use wgsl_tree_expression::ExpressionNode;

/// Reads a keyword and the condition after it.
pub fn parse_condition(
    alloc: Global,
    tokens: &mut Cursor,
    keyword: TokenKind,
) -> Result<ExpressionNode, Fault>
    ensures { Parses expression_node_view result tokens.old tokens.new
        (condition_at (class_of_kind keyword)) }
{
    tokens.expect(keyword)?;
    parse_expression(alloc, tokens)
}

/// Reads attributes and the `{` after them.
pub fn parse_block_start(alloc: Global, tokens: &mut Cursor) -> Result<Attributes, Fault>
    ensures { Parses (λ attributes.
        attributes_view attributes.items) result tokens.old tokens.new block_start_at }
{
    let attributes = parse_attributes(alloc, tokens)?;
    tokens.expect(TokenKind::SymBraceLeft)?;
    Ok(attributes)
}

/// Reads a keyword, attributes, and the `{` after them.
pub fn parse_block_start_after(
    alloc: Global,
    tokens: &mut Cursor,
    keyword: TokenKind,
) -> Result<Attributes, Fault>
    ensures { Parses (λ attributes. attributes_view attributes.items) result tokens.old tokens.new
        (block_start_after_at (class_of_kind keyword)) }
{
    tokens.expect(keyword)?;
    parse_block_start(alloc, tokens)
}

/// Reads `switch`, its expression, the attributes of its body, and the `{` after them.
pub fn parse_switch_head(
    alloc: Global,
    tokens: &mut Cursor,
) -> Result<(ExpressionNode, Attributes), Fault>
    ensures { Parses (λ head. (expression_node_view head.0, attributes_view head.1.items)) result tokens.old tokens.new switch_head_at }
{
    tokens.expect(TokenKind::KwSwitch)?;
    let expression = parse_expression(alloc, tokens)?;
    let body_attributes = parse_block_start(alloc, tokens)?;
    Ok((expression, body_attributes))
}
