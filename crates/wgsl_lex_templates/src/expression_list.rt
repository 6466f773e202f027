//! Expressions, and lists of them.
#![tactic(auto, unfolding(crate::proofs::Hints::of_lists), using(crate::proofs::Hints::lists))]

ghost use Rattle.std.specs.Prelude.{◌↔◌, List, IfOk, IsTrue};
ghost use Rattle.grammar.specs.Tokens.{Token};
ghost use Rattle.wgsl_theory_templates.proofs.Swaps.Swapped.{IsOne};
ghost use Rattle.wgsl_lex_templates.specs.ExpressionLists.{AreOfKinds, IsExpressionList};

use crate::brackets::OpenBrackets;
use crate::expression::expression;
use crate::next::take;
use std::alloc::AllocError;
use wgsl_lex_token::kind::TokenKind;

/// Returns whether tokens of these kinds are list(Expression): one expression at least, with commas
/// between, and perhaps one after the last. A reserved word or a comment is of no expression. Each
/// kind is read once. The list is overwritten: memory is taken for the brackets that are open at one
/// place.
pub fn is_expression_list(
    kinds: &[TokenKind],
    opened: &mut OpenBrackets,
) -> Result<bool, AllocError>
    ensures { IfOk result (λ list. (ts : List Token) →
        AreOfKinds ts kinds.now → IsTrue list ↔ IsExpressionList ts) }
{
    let first = expression(kinds, opened)?;
    let Some(mut left) = first else {
        return Ok(false);
    };
    'items: while let Some(next) = take(left, TokenKind::SymComma) {
        let item = expression(next, opened)?;
        match item {
            Some(following) => left = following,
            None => return Ok(next.is_empty()),
        }
    }
    Ok(left.is_empty())
}

/// Whether tokens of these kinds are one expression, without a comma after it.
pub(crate) fn is_expression(
    kinds: &[TokenKind],
    opened: &mut OpenBrackets,
) -> Result<bool, AllocError>
    ensures { IfOk result (λ one. (ts : List Token) →
        AreOfKinds ts kinds.now → IsTrue one ↔ IsOne ts) }
{
    let first = expression(kinds, opened)?;
    match first {
        Some(left) => Ok(left.is_empty()),
        None => Ok(false),
    }
}
