//! Following steps over the tokens that are left.

ghost use Rattle.std.specs.Prelude.{◌≡◌, true, false, cond};
ghost use Rattle.std.specs.List.{list_any};
ghost use Rattle.grammar.specs.States.{is_at, is_any, take_any};
ghost use Rattle.wgsl_lex_token.specs.View.{class_of_kind, classes};
ghost use Rattle.wgsl_read_cursor.specs.Reading.{state, Gives};
ghost use Rattle.wgsl_read_dialect.specs.Dialects.{dialect_view};
ghost use Rattle.wgsl_read_dialect.specs.Following.{forgotten, repeated, follow};
ghost use Rattle.wgsl_read_dialect.specs.Weights.{can_be_empty, is_settled};
ghost use Rattle.wgsl_read_dialect.specs.View.{steps_view};

use crate::dialect::Dialect;
use crate::rules::right_side;
use crate::step::Step;
use wgsl_lex_token::kind::TokenKind;
use wgsl_read_cursor::{Cursor, Expected, Fault};

/// Whether the next token is of one of some kinds.
fn is_at_any(kinds: &[TokenKind], tokens: &Cursor) -> bool
    ensures { result ≡ list_any (λ kind. is_at (class_of_kind kind) (state tokens.now)) kinds.now }
{
    kinds.iter().any(|kind| tokens.is_at(*kind))
}

/// Takes a token of one of some kinds.
fn take_any(kinds: &'static [TokenKind], tokens: &mut Cursor) -> Result<(), Fault>
    ensures { Gives (λ u. u) result
        (state tokens.new) (forgotten (take_any (classes kinds.now) (state tokens.old))) }
{
    for kind in kinds {
        if tokens.eat(*kind) {
            return Ok(());
        }
    }
    Err(tokens.refuse(Expected::OneOf(kinds)))
}

/// The first steps where the next token is of one of some kinds, else the second.
#[tactic(auto, using(crate::proofs::AnyKind::any_is))]
fn choose(
    kinds: &[TokenKind],
    first: &'static [Step],
    second: &'static [Step],
    tokens: &Cursor,
) -> &'static [Step]
    ensures { steps_view result.now ≡ cond (is_any (classes kinds.now) (state tokens.now))
        (steps_view first.now) (steps_view second.now) }
{
    if is_at_any(kinds, tokens) {
        first
    } else {
        second
    }
}

/// Follows steps. The last one is followed in their place, so that a long list needs no deeper a stack than a short one.
#[cycle(accept)]
pub fn accept(dialect: Dialect, steps: &'static [Step], tokens: &mut Cursor) -> Result<(), Fault>
    requires { is_settled (steps_view steps.now) ≡ true }
    ensures { Gives (λ u. u) result (state tokens.new)
        (follow (dialect_view dialect) (steps_view steps.now) (state tokens.old)) }
{
    tokens.go_deeper()?;
    let mut left = steps;
    'steps: while let Some((step, rest)) = left.split_first() {
        match step {
            Step::Token(kinds) => {
                take_any(kinds, tokens)?;
                left = rest;
                continue;
            }
            Step::Repeat(kinds, each) => {
                accept_each(dialect, kinds, each, tokens)?;
                left = rest;
                continue;
            }
            Step::Rule(symbol) => {
                let inner = right_side(dialect, *symbol);
                if rest.is_empty() {
                    left = inner;
                    continue;
                }
                accept(dialect, inner, tokens)?;
                left = rest;
                continue;
            }
            Step::Choice(kinds, first, second) => {
                let chosen = choose(kinds, first, second, tokens);
                if rest.is_empty() {
                    left = chosen;
                    continue;
                }
                accept(dialect, chosen, tokens)?;
                left = rest;
                continue;
            }
        }
    }
    tokens.come_back();
    Ok(())
}

/// Follows steps as long as the next token is of one of some kinds.
#[cycle(accept)]
fn accept_each(
    dialect: Dialect,
    kinds: &'static [TokenKind],
    each: &'static [Step],
    tokens: &mut Cursor,
) -> Result<(), Fault>
    requires taking { can_be_empty (steps_view each.now) ≡ false }
    requires settled { is_settled (steps_view each.now) ≡ true }
    ensures { Gives (λ u. u) result (state tokens.new)
        (repeated (classes kinds.now) (follow (dialect_view dialect) (steps_view each.now))
        (state tokens.old)) }
{
    'items: while is_at_any(kinds, tokens) {
        accept(dialect, each, tokens)?;
    }
    Ok(())
}
