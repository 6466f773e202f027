//! The operators of an expression, as far as they say which operator may follow.
#![tactic(auto, unfolding(crate::proofs::Hints::of_operators), using(crate::proofs::Hints::operators))]

ghost use Rattle.std.specs.Prelude.{◌≡◌, ◌<◌, false, length, IfSome, MatchOption, Some, None};
ghost use Rattle.wgsl_model.specs.Grammar.Symbols.{Symbol.shift_expression};
ghost use Rattle.wgsl_theory_grammar.specs.Factored.{FactoredSymbol.of, FactoredSymbol.further, Further.expression_rest};
ghost use Rattle.wgsl_lex_token.specs.View.{class_of_kind, classes};
ghost use Rattle.wgsl_lex_templates.specs.Advancing.{advances, bitwise_operands, relations};
ghost use Rattle.wgsl_lex_templates.specs.declared.operators.Operators.TheVariants.{Relations};
ghost use Rattle.wgsl_lex_templates.specs.declared.operators.Sum.TheVariants.{First};
ghost use Rattle.wgsl_lex_templates.specs.Expressions.{after_sum, after_relation, after_chain, after_relations, after_operand, GoesOn};

use crate::next::{take, take_any};
use wgsl_lex_token::kind::TokenKind;

/// The operators of products and sums. With `--` a negation is subtracted.
const ARITHMETIC_OPERATORS: &[TokenKind] = &[
    TokenKind::SymStar,
    TokenKind::SymForwardSlash,
    TokenKind::SymModulo,
    TokenKind::SymPlus,
    TokenKind::SymMinus,
    TokenKind::SymMinusMinus,
];

const SHIFT_OPERATORS: &[TokenKind] = &[TokenKind::SymShiftLeft, TokenKind::SymShiftRight];

const RELATIONAL_OPERATORS: &[TokenKind] = &[
    TokenKind::SymLessThan,
    TokenKind::SymGreaterThan,
    TokenKind::SymLessThanEqual,
    TokenKind::SymGreaterThanEqual,
    TokenKind::SymEqualEqual,
    TokenKind::SymNotEqual,
];

/// What an operand is in.
#[derive(Clone, Copy)]
pub(crate) enum Sum {
    /// No operator is before it.
    First,
    /// A sum or a product.
    Further,
    /// A shift, of which it is the last.
    Shifted,
}

/// The operators before an operand.
#[derive(Clone, Copy)]
pub(crate) enum Operators {
    /// There are none.
    None,
    /// One bitwise operator, between all operands.
    Bitwise(TokenKind),
    /// Others: the short-circuit operator between relations, if there is one, whether a comparison
    /// is before the operand in its relation, and what the operand is in.
    Relations {
        chain: Option<TokenKind>,
        is_compared: bool,
        sum: Sum,
    },
}

/// The next operator of a sum or a shift, if there is one, and what is after it.
fn next_in_sum(sum: Sum, kinds: &[TokenKind]) -> Option<(Sum, &[TokenKind])>
    ensures value { GoesOn after_sum sum (classes kinds.now) result }
    ensures shorter { IfSome result (λ next.
        length (classes next.1.now) < length (classes kinds.now)) }
{
    match sum {
        Sum::First => {
            if let Some(left) = take_any(kinds, SHIFT_OPERATORS) {
                return Some((Sum::Shifted, left));
            }
            Some((Sum::Further, take_any(kinds, ARITHMETIC_OPERATORS)?))
        }
        Sum::Further => Some((Sum::Further, take_any(kinds, ARITHMETIC_OPERATORS)?)),
        Sum::Shifted => None,
    }
}

/// The next operator between relations, if there is one, and what is after it.
fn next_in_chain(chain: Option<TokenKind>, kinds: &[TokenKind]) -> Option<(TokenKind, &[TokenKind])>
    ensures value { MatchOption result
        (after_chain chain (classes kinds.now) ≡ Some (classes kinds.now)) (λ next.
        after_chain chain (classes kinds.now)
        ≡ relations (class_of_kind next.0) (classes next.1.now)) }
    ensures shorter { IfSome result (λ next.
        length (classes next.1.now) < length (classes kinds.now)) }
{
    if let Some(operator) = chain {
        return Some((operator, take(kinds, operator)?));
    }
    if let Some(left) = take(kinds, TokenKind::SymAndAnd) {
        return Some((TokenKind::SymAndAnd, left));
    }
    Some((TokenKind::SymOrOr, take(kinds, TokenKind::SymOrOr)?))
}

/// What is after the next relational operator, if it may follow.
fn next_comparison(is_compared: bool, kinds: &[TokenKind]) -> Option<&[TokenKind]>
    ensures value { MatchOption result
        (after_relation is_compared (classes kinds.now) ≡ Some (classes kinds.now)) (λ left.
        after_relation is_compared (classes kinds.now)
        ≡ advances (of shift_expression) (classes left.now)) }
    ensures shorter { IfSome result (λ left.
        length (classes left.now) < length (classes kinds.now)) }
{
    if is_compared {
        return None;
    }
    take_any(kinds, RELATIONAL_OPERATORS)
}

/// The next operator of relations, if there is one, and what is after it.
fn next_in_relations(
    chain: Option<TokenKind>,
    is_compared: bool,
    sum: Sum,
    kinds: &[TokenKind],
) -> Option<(Operators, &[TokenKind])>
    ensures value { GoesOn after_operand
        (Relations chain is_compared sum) (classes kinds.now) result }
    ensures shorter { IfSome result (λ next.
        length (classes next.1.now) < length (classes kinds.now)) }
{
    if let Some((sum, left)) = next_in_sum(sum, kinds) {
        let operators = Operators::Relations {
            chain,
            is_compared,
            sum,
        };
        return Some((operators, left));
    }
    if let Some(left) = next_comparison(is_compared, kinds) {
        let operators = Operators::Relations {
            chain,
            is_compared: true,
            sum: Sum::First,
        };
        return Some((operators, left));
    }
    let (operator, left) = next_in_chain(chain, kinds)?;
    let operators = Operators::Relations {
        chain: Some(operator),
        is_compared: false,
        sum: Sum::First,
    };
    Some((operators, left))
}

/// The next bitwise operator, if there is one, and what is after it.
fn next_bitwise(kinds: &[TokenKind]) -> Option<(TokenKind, &[TokenKind])>
    ensures value { MatchOption result
        (advances (further expression_rest) (classes kinds.now)
        ≡ after_relations None false First (classes kinds.now)) (λ next.
        advances (further expression_rest) (classes kinds.now)
        ≡ bitwise_operands (class_of_kind next.0) (classes next.1.now)) }
    ensures shorter { IfSome result (λ next.
        length (classes next.1.now) < length (classes kinds.now)) }
{
    if let Some(left) = take(kinds, TokenKind::SymAnd) {
        return Some((TokenKind::SymAnd, left));
    }
    if let Some(left) = take(kinds, TokenKind::SymOr) {
        return Some((TokenKind::SymOr, left));
    }
    Some((TokenKind::SymXor, take(kinds, TokenKind::SymXor)?))
}

impl Operators {
    /// The operators with the next one, if it may follow the operand after these, and what is
    /// after it.
    pub(crate) fn next(self, kinds: &[TokenKind]) -> Option<(Operators, &[TokenKind])>
        ensures value { GoesOn after_operand self (classes kinds.now) result }
        ensures shorter { IfSome result (λ next.
            length (classes next.1.now) < length (classes kinds.now)) }
    {
        match self {
            Operators::None => {
                if let Some((operator, left)) = next_bitwise(kinds) {
                    return Some((Operators::Bitwise(operator), left));
                }
                next_in_relations(None, false, Sum::First, kinds)
            }
            Operators::Bitwise(operator) => Some((self, take(kinds, operator)?)),
            Operators::Relations {
                chain,
                is_compared,
                sum,
            } => next_in_relations(chain, is_compared, sum, kinds),
        }
    }
}
