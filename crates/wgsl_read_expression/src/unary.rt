//! Operators before operands.
#![tactic(auto, unfolding(crate::proofs::Hints::definitions), using(crate::proofs::Hints::lemmas))]

ghost use Rattle.wgsl_model.specs.Grammar.Symbols.{Symbol.unary_expression};
ghost use Rattle.wgsl_theory_grammar.specs.Factored.{FactoredSymbol.of};
ghost use Rattle.wgsl_theory_grammar.specs.Reader.{reader};
ghost use Rattle.wgsl_tree_expression.specs.View.{expression_node_view};
ghost use Rattle.wgsl_read_cursor.specs.Reading.{Parses};

use crate::nodes::unary;
use crate::operators::unary_operator;
use crate::primary::parse_singular_expression;
use std::alloc::Global;
use wgsl_read_cursor::{Cursor, Fault};
use wgsl_span::Spanned;
use wgsl_tree_expression::ExpressionNode;

/// Reads an operand with the operators before it. Each expression inside another is inside its
/// operand.
#[cycle(expression)]
pub fn parse_unary_expression(alloc: Global, tokens: &mut Cursor) -> Result<ExpressionNode, Fault>
    ensures { Parses expression_node_view result tokens.old tokens.new
        (reader (of unary_expression)) }
{
    let start = tokens.start();
    tokens.go_deeper()?;
    let Some(operator) = unary_operator(tokens) else {
        let operand = parse_singular_expression(alloc, tokens)?;
        tokens.come_back();
        return Ok(operand);
    };
    let operand = parse_unary_expression(alloc, tokens)?;
    tokens.come_back();
    let span = tokens.span_from(start);
    Ok(Spanned::new(alloc, unary(operator, operand), span)?)
}
