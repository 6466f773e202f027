//! The operators before and between operands.
#![tactic(auto, unfolding(crate::proofs::Hints::definitions), using(crate::proofs::Hints::lemmas))]

ghost use Rattle.std.specs.Prelude.{◌≡◌};
ghost use Rattle.grammar.specs.Grammar.{is_among};
ghost use Rattle.grammar.specs.States.{is_any};
ghost use Rattle.wgsl_lex_token.specs.View.{class_of_kind};
ghost use Rattle.wgsl_tree_words.specs.View.{unary_operator_view, binary_operator_view};
ghost use Rattle.wgsl_read_expression.specs.Taking.{Takes};
ghost use Rattle.wgsl_read_cursor.specs.Reading.{state};
ghost use Rattle.wgsl_read_expression.specs.Rules.{binary_operators, unary_operators, multiplicative_operators, additive_operators, relational_operators, unary_operator_at, multiplicative_operator_at, additive_operator_at, relational_operator_at};

use wgsl_lex_token::kind::TokenKind;
use wgsl_read_cursor::Cursor;
use wgsl_tree_words::{BinaryOperator, UnaryOperator};

/// Whether a token of a kind is between two operands.
#[tactic(auto)]
fn is_operator(kind: TokenKind) -> bool
    ensures { result ≡ is_among (class_of_kind kind) binary_operators }
{
    matches!(
        kind,
        TokenKind::SymAnd
            | TokenKind::SymOr
            | TokenKind::SymXor
            | TokenKind::SymAndAnd
            | TokenKind::SymOrOr
            | TokenKind::SymShiftLeft
            | TokenKind::SymShiftRight
            | TokenKind::SymStar
            | TokenKind::SymForwardSlash
            | TokenKind::SymModulo
            | TokenKind::SymPlus
            | TokenKind::SymMinus
            | TokenKind::SymMinusMinus
            | TokenKind::SymLessThan
            | TokenKind::SymGreaterThan
            | TokenKind::SymLessThanEqual
            | TokenKind::SymGreaterThanEqual
            | TokenKind::SymEqualEqual
            | TokenKind::SymNotEqual
    )
}

/// Returns whether an operator between two operands is next.
pub fn is_at_operator(tokens: &Cursor) -> bool
    ensures { result ≡ is_any binary_operators (state tokens.now) }
{
    match tokens.kind() {
        Some(kind) => is_operator(kind),
        None => false,
    }
}

/// Takes an operator that is before an operand, if it is next.
pub fn unary_operator(tokens: &mut Cursor) -> Option<UnaryOperator>
    ensures { Takes unary_operator_view result tokens.old tokens.new unary_operators unary_operator_at }
{
    if tokens.eat(TokenKind::SymMinus) {
        return Some(UnaryOperator::Negation);
    }
    if tokens.eat(TokenKind::SymBang) {
        return Some(UnaryOperator::LogicalNegation);
    }
    if tokens.eat(TokenKind::SymTilde) {
        return Some(UnaryOperator::BitwiseComplement);
    }
    if tokens.eat(TokenKind::SymStar) {
        return Some(UnaryOperator::Indirection);
    }
    if tokens.eat(TokenKind::SymAnd) {
        return Some(UnaryOperator::AddressOf);
    }
    None
}

/// Takes the operator of a product, if it is next.
pub fn multiplicative_operator(tokens: &mut Cursor) -> Option<BinaryOperator>
    ensures { Takes binary_operator_view result tokens.old tokens.new multiplicative_operators multiplicative_operator_at }
{
    if tokens.eat(TokenKind::SymStar) {
        return Some(BinaryOperator::Multiplication);
    }
    if tokens.eat(TokenKind::SymForwardSlash) {
        return Some(BinaryOperator::Division);
    }
    if tokens.eat(TokenKind::SymModulo) {
        return Some(BinaryOperator::Remainder);
    }
    None
}

/// Takes `+` or `-`, if it is next.
pub fn additive_operator(tokens: &mut Cursor) -> Option<BinaryOperator>
    ensures { Takes binary_operator_view result tokens.old tokens.new additive_operators additive_operator_at }
{
    if tokens.eat(TokenKind::SymPlus) {
        return Some(BinaryOperator::Addition);
    }
    if tokens.eat(TokenKind::SymMinus) {
        return Some(BinaryOperator::Subtraction);
    }
    None
}

/// Takes the operator of a comparison, if it is next.
pub fn relational_operator(tokens: &mut Cursor) -> Option<BinaryOperator>
    ensures { Takes binary_operator_view result tokens.old tokens.new relational_operators relational_operator_at }
{
    if tokens.eat(TokenKind::SymLessThan) {
        return Some(BinaryOperator::LessThan);
    }
    if tokens.eat(TokenKind::SymGreaterThan) {
        return Some(BinaryOperator::GreaterThan);
    }
    if tokens.eat(TokenKind::SymLessThanEqual) {
        return Some(BinaryOperator::LessThanEqual);
    }
    if tokens.eat(TokenKind::SymGreaterThanEqual) {
        return Some(BinaryOperator::GreaterThanEqual);
    }
    if tokens.eat(TokenKind::SymEqualEqual) {
        return Some(BinaryOperator::Equality);
    }
    if tokens.eat(TokenKind::SymNotEqual) {
        return Some(BinaryOperator::Inequality);
    }
    None
}
