//! What is at the front of the tokens at a place of an expression.
#![tactic(auto, using(crate::proofs::Hints::steps))]

ghost use Rattle.wgsl_lex_token.specs.View.{classes};
ghost use Rattle.wgsl_lex_templates.specs.declared.steps.Position.TheVariants.{Operand, Name, Template, Part};
ghost use Rattle.wgsl_lex_templates.specs.Expressions.{IsStep, IsShorterAfter};

use crate::brackets::Bracket;
use crate::next::{take, take_any};
use crate::operators::Operators;
use wgsl_lex_token::kind::TokenKind;

const LITERALS: &[TokenKind] = &[
    TokenKind::KwTrue,
    TokenKind::KwFalse,
    TokenKind::AbstractInt,
    TokenKind::I32,
    TokenKind::U32,
    TokenKind::AbstractFloat,
    TokenKind::F32,
    TokenKind::F16,
];

const PREFIX_OPERATORS: &[TokenKind] = &[
    TokenKind::SymMinus,
    TokenKind::SymBang,
    TokenKind::SymTilde,
    TokenKind::SymStar,
    TokenKind::SymAnd,
];

/// A place in an expression.
#[derive(Clone, Copy)]
pub(crate) enum Position {
    /// Before an operand or a prefix operator.
    Operand,
    /// After a name.
    Name,
    /// After a template list.
    Template,
    /// After an operand or a part of it, which components may follow.
    Part,
}

/// What is next, and what is after it.
pub(crate) enum Step<'k> {
    GoesOn(Position, Operators, &'k [TokenKind]),
    Opens(Bracket, &'k [TokenKind]),
    /// The expression ends before it.
    Ends,
    Fails,
}

fn at_operand(operators: Operators, kinds: &[TokenKind]) -> Step<'_>
    ensures value { IsStep Operand operators (classes kinds.now) result }
    ensures shorter { IsShorterAfter (classes kinds.now) result }
{
    if let Some(left) = take_any(kinds, PREFIX_OPERATORS) {
        return Step::GoesOn(Position::Operand, operators, left);
    }
    if let Some(left) = take(kinds, TokenKind::Ident) {
        return Step::GoesOn(Position::Name, operators, left);
    }
    if let Some(left) = take_any(kinds, LITERALS) {
        return Step::GoesOn(Position::Part, operators, left);
    }
    if let Some(left) = take(kinds, TokenKind::SymParenLeft) {
        return Step::Opens(Bracket::Parentheses, left);
    }
    Step::Fails
}

fn at_name(operators: Operators, kinds: &[TokenKind]) -> Step<'_>
    ensures value { IsStep Name operators (classes kinds.now) result }
    ensures shorter { IsShorterAfter (classes kinds.now) result }
{
    if let Some(left) = take(kinds, TokenKind::TemplateArgsStart) {
        return Step::Opens(Bracket::Template, left);
    }
    after_template(operators, kinds)
}

fn after_template(operators: Operators, kinds: &[TokenKind]) -> Step<'_>
    ensures value { IsStep Template operators (classes kinds.now) result }
    ensures shorter { IsShorterAfter (classes kinds.now) result }
{
    if let Some(arguments) = take(kinds, TokenKind::SymParenLeft) {
        if let Some(left) = take(arguments, TokenKind::SymParenRight) {
            return Step::GoesOn(Position::Part, operators, left);
        }
        return Step::Opens(Bracket::Arguments, arguments);
    }
    after_part(operators, kinds)
}

fn after_part(operators: Operators, kinds: &[TokenKind]) -> Step<'_>
    ensures value { IsStep Part operators (classes kinds.now) result }
    ensures shorter { IsShorterAfter (classes kinds.now) result }
{
    if let Some(left) = take(kinds, TokenKind::SymBracketLeft) {
        return Step::Opens(Bracket::Index, left);
    }
    if let Some(component) = take(kinds, TokenKind::SymPeriod) {
        return match take(component, TokenKind::Ident) {
            Some(left) => Step::GoesOn(Position::Part, operators, left),
            None => Step::Fails,
        };
    }
    match operators.next(kinds) {
        Some((operators, left)) => Step::GoesOn(Position::Operand, operators, left),
        None => Step::Ends,
    }
}

/// What is next at a place of an expression, after an operand with these operators before it or
/// before one.
pub(crate) fn next_step(position: Position, operators: Operators, kinds: &[TokenKind]) -> Step<'_>
    ensures value { IsStep position operators (classes kinds.now) result }
    ensures shorter { IsShorterAfter (classes kinds.now) result }
{
    match position {
        Position::Operand => at_operand(operators, kinds),
        Position::Name => at_name(operators, kinds),
        Position::Template => after_template(operators, kinds),
        Position::Part => after_part(operators, kinds),
    }
}
