//! What is left after an expression at the front of the tokens.

ghost use Rattle.std.specs.Prelude.{◌≡◌, IfOk};
ghost use Rattle.wgsl_model.specs.Grammar.Symbols.{Symbol.expression};
ghost use Rattle.wgsl_theory_grammar.specs.Factored.{FactoredSymbol.of};
ghost use Rattle.wgsl_lex_token.specs.View.{classes};
ghost use Rattle.wgsl_lex_templates.specs.Advancing.{advances, LeavesKinds};
ghost use Rattle.wgsl_lex_templates.specs.Expressions.{position_after};

use crate::brackets::{Bracket, Closing, Open, OpenBrackets, close};
use crate::operators::Operators;
use crate::steps::{Position, Step, next_step};
use std::alloc::AllocError;
use wgsl_lex_token::kind::TokenKind;

impl Bracket {
    /// Where an expression goes on after the bracket.
    fn position_after(self) -> Position
        ensures { result ≡ position_after self }
    {
        match self {
            Bracket::Template => Position::Template,
            Bracket::Parentheses | Bracket::Index | Bracket::Arguments => Position::Part,
        }
    }
}

/// Returns the kinds that are left after an expression at the front of these, if one is there. The
/// list is overwritten.
pub(crate) fn expression<'k>(
    kinds: &'k [TokenKind],
    opened: &mut OpenBrackets,
) -> Result<Option<&'k [TokenKind]>, AllocError>
    ensures { IfOk result (λ left.
        LeavesKinds left (advances (of expression) (classes kinds.now))) }
{
    opened.clear();
    let mut position = Position::Operand;
    let mut operators = Operators::None;
    let mut left = kinds;
    'steps: loop {
        match next_step(position, operators, left) {
            Step::GoesOn(next, following, rest) => {
                position = next;
                operators = following;
                left = rest;
                continue;
            }
            Step::Opens(bracket, rest) => {
                opened.push(Open { bracket, operators })?;
                position = Position::Operand;
                operators = Operators::None;
                left = rest;
                continue;
            }
            Step::Ends => {}
            Step::Fails => return Ok(None),
        }
        let Some(item) = opened.innermost() else {
            return Ok(Some(left));
        };
        match close(item.bracket, left) {
            Closing::Closes(rest) => {
                opened.pop();
                position = item.bracket.position_after();
                operators = item.operators;
                left = rest;
                continue;
            }
            Closing::GoesOn(rest) => {
                position = Position::Operand;
                operators = Operators::None;
                left = rest;
                continue;
            }
            Closing::Fails => return Ok(None),
        }
    }
}
