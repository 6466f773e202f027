//! The brackets that are open at a place of an expression.

ghost use Rattle.std.specs.Prelude.{◌≡◌, ℕ, [], ◌∷◌, List, drop, length, reverse, IfOk, MatchOption, Option};
ghost use Rattle.wgsl_lex_token.specs.View.{class_of_kind, classes};
ghost use Rattle.wgsl_lex_templates.specs.Advancing.{take};
ghost use Rattle.wgsl_lex_templates.specs.declared.brackets.Open.{Open};
ghost use Rattle.wgsl_lex_templates.specs.Expressions.{rest_of_bracket, IsClosingBy, IsRestOfList, LeavesFewer};

use crate::next::take;
use crate::operators::Operators;
use std::alloc::{AllocError, Global};
use std::marker::Model;
use wgsl_lex_token::kind::TokenKind;

/// What is in a bracket.
#[derive(Clone, Copy)]
pub(crate) enum Bracket {
    /// An expression that is an operand.
    Parentheses,
    Index,
    Arguments,
    /// The arguments of a template.
    Template,
}

/// A bracket that is open, and the operators before the operand that it is in.
#[derive(Clone, Copy)]
pub(crate) struct Open {
    pub(crate) bracket: Bracket,
    pub(crate) operators: Operators,
}

/// The list of those that are open, the innermost last; seen as a list, the innermost first. It
/// may be used again for other expressions.
#[derive(Drop)]
pub struct OpenBrackets {
    items: Vec<Open>,
}

impl Model for OpenBrackets {
    ghost Value = { List Open };

    ghost view = { λ opened. reverse opened.items.items };
}

impl OpenBrackets {
    /// Returns an empty list.
    pub fn new(alloc: Global) -> OpenBrackets
        ensures { result ≡ [] }
    {
        OpenBrackets {
            items: Vec::new(alloc),
        }
    }

    pub(crate) fn clear(&mut self)
        ensures { self.new ≡ [] }
    {
        self.items.clear();
    }

    pub(crate) fn push(&mut self, item: Open) -> Result<(), AllocError>
        ensures { IfOk result (λ _. self.new ≡ item ∷ self.old) }
    {
        self.items.push(item)?;
        Ok(())
    }

    /// The innermost, if there is one.
    pub(crate) fn innermost(&self) -> Option<Open>
        ensures { MatchOption result (self.now ≡ [])
            (λ item. self.now ≡ item ∷ drop 1 self.now) }
    {
        Some(*self.items.last()?)
    }

    /// Closes the innermost, if there is one.
    pub(crate) fn pop(&mut self)
        ensures { self.new ≡ drop 1 self.old }
    {
        self.items.pop();
    }
}

/// What is after an expression in a bracket.
pub(crate) enum Closing<'k> {
    /// The bracket is closed.
    Closes(&'k [TokenKind]),
    /// Another expression follows a comma.
    GoesOn(&'k [TokenKind]),
    Fails,
}

/// Closes a bracket with a token of a kind.
fn close_with(kinds: &[TokenKind], end: TokenKind) -> Closing<'_>
    ensures value { (rest : List ℕ → Option (List ℕ)) →
        rest (classes kinds.now) ≡ take (class_of_kind end) (classes kinds.now) →
        IsClosingBy rest (classes kinds.now) result }
    ensures shorter { LeavesFewer (classes kinds.now) result }
{
    match take(kinds, end) {
        Some(left) => Closing::Closes(left),
        None => Closing::Fails,
    }
}

/// Closes a list with a token of a kind, or goes on with it after a comma. The last item may have
/// one after it, too.
fn close_list(kinds: &[TokenKind], end: TokenKind) -> Closing<'_>
    ensures value { (rest : List ℕ → Option (List ℕ)) → IsRestOfList (class_of_kind end) rest →
        IsClosingBy rest (classes kinds.now) result }
    ensures shorter { LeavesFewer (classes kinds.now) result }
{
    let Some(next) = take(kinds, TokenKind::SymComma) else {
        return close_with(kinds, end);
    };
    match take(next, end) {
        Some(left) => Closing::Closes(left),
        None => Closing::GoesOn(next),
    }
}

/// Closes a bracket after an expression in it, or goes on after a comma.
pub(crate) fn close(bracket: Bracket, kinds: &[TokenKind]) -> Closing<'_>
    ensures value { IsClosingBy (rest_of_bracket bracket) (classes kinds.now) result }
    ensures shorter { LeavesFewer (classes kinds.now) result }
{
    match bracket {
        Bracket::Parentheses => close_with(kinds, TokenKind::SymParenRight),
        Bracket::Index => close_with(kinds, TokenKind::SymBracketRight),
        Bracket::Arguments => close_list(kinds, TokenKind::SymParenRight),
        Bracket::Template => close_list(kinds, TokenKind::TemplateArgsEnd),
    }
}
