//! Taking the next token.
#![tactic(auto, unfolding(crate::proofs::Hints::of_kinds), using(crate::proofs::Among::among))]

ghost use Rattle.std.specs.Prelude.{◌≡◌, ◌<◌, length, IfSome};
ghost use Rattle.grammar.specs.Grammar.{is_among};
ghost use Rattle.wgsl_lex_token.specs.View.{class_of_kind, classes};
ghost use Rattle.wgsl_lex_templates.specs.Advancing.{take, take_any, LeavesKinds};

use wgsl_lex_token::kind::TokenKind;

/// Whether a kind is one of some kinds.
fn is_among(kind: TokenKind, kinds: &[TokenKind]) -> bool
    ensures { result ≡ is_among (class_of_kind kind) (classes kinds.now) }
{
    kinds.contains(&kind)
}

/// Returns what is left after the next token, which has to be of one of some kinds.
pub fn take_any<'k>(kinds: &'k [TokenKind], among: &[TokenKind]) -> Option<&'k [TokenKind]>
    ensures value { LeavesKinds result (take_any (classes among.now) (classes kinds.now)) }
    ensures shorter { IfSome result (λ left.
        length (classes left.now) < length (classes kinds.now)) }
{
    let (next, left) = kinds.split_first()?;
    if is_among(*next, among) {
        Some(left)
    } else {
        None
    }
}

/// Returns what is left after the next token, which has to be of a kind.
pub fn take(kinds: &[TokenKind], kind: TokenKind) -> Option<&[TokenKind]>
    ensures value { LeavesKinds result (take (class_of_kind kind) (classes kinds.now)) }
    ensures shorter { IfSome result (λ left.
        length (classes left.now) < length (classes kinds.now)) }
{
    let (next, left) = kinds.split_first()?;
    if *next == kind { Some(left) } else { None }
}
