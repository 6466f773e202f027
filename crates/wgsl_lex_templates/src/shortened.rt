//! A list of expressions in fewer kinds, which may be in its place.

ghost use Rattle.std.specs.Prelude.{◌≡◌, ◌≤◌, ⊤, ◌∷◌, ◌++◌, length, IfOk, IfSome, IsTrue, MatchOption};
ghost use Rattle.wgsl_model.specs.Tokens.ClassTable.{SymParenLeft, SymParenRight};
ghost use Rattle.wgsl_lex_token.specs.View.{classes};
ghost use Rattle.wgsl_lex_templates.specs.Shortened.{in_parentheses, MayReplace};

use crate::brackets::OpenBrackets;
use crate::expression_list::{is_expression, is_expression_list};
use crate::next::take;
use std::alloc::AllocError;
use wgsl_lex_token::kind::TokenKind;

const ONE_EXPRESSION: &[TokenKind] = &[TokenKind::Ident];

const NOT_ONE_EXPRESSION: &[TokenKind] = &[TokenKind::Ident, TokenKind::SymComma];

/// Where the first of the closing parentheses among kinds is that closes none of them.
fn closing(kinds: &[TokenKind]) -> Option<usize>
    ensures { IfSome result (λ at. at ≤ length kinds.now) }
{
    let mut open = 0usize;
    for (at, kind) in kinds.iter().enumerate() {
        match *kind {
            TokenKind::SymParenLeft => open = open.saturating_add(1),
            TokenKind::SymParenRight => {
                if open == 0 {
                    return Some(at);
                }
                open -= 1;
            }
            _ => {}
        }
    }
    None
}

/// What is in the parentheses with which kinds begin, and what is after these.
fn parenthesized(kinds: &[TokenKind]) -> Option<(&[TokenKind], &[TokenKind])>
    ensures { MatchOption result ⊤ (λ parts.
        classes kinds.now ≡ in_parentheses (classes parts.0.now) ++ classes parts.1.now) }
{
    let inner = take(kinds, TokenKind::SymParenLeft)?;
    let (content, rest) = inner.split_at(closing(inner)?);
    Some((content, take(rest, TokenKind::SymParenRight)?))
}

/// What may be in parentheses in place of kinds.
fn content<'k>(
    kinds: &'k [TokenKind],
    opened: &mut OpenBrackets,
) -> Result<&'k [TokenKind], AllocError>
    ensures { IfOk result (λ short. MayReplace (in_parentheses (classes short.now))
        (in_parentheses (classes kinds.now))) }
{
    let is_one = is_expression(kinds, opened)?;
    if is_one {
        return Ok(ONE_EXPRESSION);
    }
    let is_list = is_expression_list(kinds, opened)?;
    if is_list {
        return Ok(NOT_ONE_EXPRESSION);
    }
    Ok(kinds)
}

/// Puts kinds into a list in which the content of parentheses is short, if there are fewer than so
/// many of them then. The lists are overwritten.
pub(crate) fn shorten(
    kinds: &[TokenKind],
    limit: usize,
    short: &mut Vec<TokenKind>,
    opened: &mut OpenBrackets,
) -> Result<bool, AllocError>
    ensures { IfOk result (λ all. IsTrue all →
        MayReplace (classes short.new.items) (classes kinds.now)) }
{
    short.clear();
    let mut left = kinds;
    'kinds: while let Some((kind, next)) = left.split_first() {
        if short.len() >= limit {
            return Ok(false);
        }
        if let Some((inner, rest)) = parenthesized(left) {
            let inside = content(inner, opened)?;
            short.push(TokenKind::SymParenLeft)?;
            short.extend_from_slice(inside)?;
            short.push(TokenKind::SymParenRight)?;
            left = rest;
            continue;
        }
        short.push(*kind)?;
        left = next;
    }
    Ok(short.len() < limit)
}
