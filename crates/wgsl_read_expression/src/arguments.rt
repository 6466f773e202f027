//! The arguments of calls.
#![tactic(auto, unfolding(crate::proofs::Hints::definitions), using(crate::proofs::Hints::lemmas))]

ghost use Rattle.std.specs.Prelude.{map};
ghost use Rattle.wgsl_model.specs.Grammar.Symbols.{Symbol.arguments};
ghost use Rattle.wgsl_theory_grammar.specs.Factored.{FactoredSymbol.of};
ghost use Rattle.wgsl_theory_grammar.specs.Reader.{reader};
ghost use Rattle.wgsl_tree_expression.specs.View.{expression_node_view};
ghost use Rattle.wgsl_read_cursor.specs.Reading.{Parses};

use crate::expression::parse_expression;
use std::alloc::Global;
use wgsl_lex_token::kind::TokenKind;
use wgsl_read_cursor::{Cursor, Fault, add};
use wgsl_tree_expression::ExpressionNode;

/// Reads arguments in parentheses.
#[cycle(expression)]
pub fn parse_arguments(alloc: Global, tokens: &mut Cursor) -> Result<Vec<ExpressionNode>, Fault>
    ensures { Parses (λ args. map expression_node_view args.items) result tokens.old tokens.new
        (reader (of arguments)) }
{
    tokens.expect(TokenKind::SymParenLeft)?;
    let mut arguments = Vec::new(alloc);
    'arguments: while !tokens.eat(TokenKind::SymParenRight) {
        add(&mut arguments, parse_expression(alloc, tokens)?)?;
        if !tokens.eat(TokenKind::SymComma) {
            tokens.expect(TokenKind::SymParenRight)?;
            return Ok(arguments);
        }
    }
    Ok(arguments)
}
