//! Whole numbers in hexadecimal, where that is shorter.

ghost use Rattle.std.specs.Prelude.{◌≡◌, ◌∷◌, List, drop, chars, length, nat_lt, if◌then◌else◌, string_bytes, IfOk};
ghost use Rattle.grammar.specs.Tokens as grammar;
ghost use Rattle.grammar.specs.Tokens.{Payload.number as number_payload};
ghost use Rattle.wgsl_lexer.specs.TextTokens.{tokens_left};
ghost use Rattle.wgsl_model_short.specs.Respelled.{hexadecimal, short_text, shorter_number};
ghost use Rattle.wgsl_format_short.specs.Spelled as model;

use std::alloc::{AllocError, Global};
use wgsl_lex_token::kind::TokenKind;
use wgsl_lex_token::placed::PlacedToken;
use wgsl_lex_token::token::Token;
use wgsl_lexer::TextTokens;

/// Takes the next token, which has this text. Returns its other text, if it has one that is
/// shorter. Only a whole number without a suffix is made for that.
pub(crate) fn take_token(
    alloc: Global,
    tokens: &mut TextTokens,
    text: &str,
) -> Result<Option<String>, AllocError>
    ensures left { IfOk result (λ _. tokens_left tokens.new ≡ drop 1 (tokens_left tokens.old)) }
    ensures text { IfOk result (λ other. (t : grammar.Token) (ts : List grammar.Token) →
        tokens_left tokens.old ≡ t ∷ ts →
        short_text t (chars text.now) ≡ model.spelled other (chars text.now)) }
{
    if !matches!(tokens.kind(), Some(TokenKind::AbstractInt)) {
        tokens.skip();
        return Ok(None);
    }
    match tokens.take()? {
        Some(
            PlacedToken {
                token: Token::AbstractInt(number),
                ..
            },
        ) => shorter(alloc, number, text),
        _ => Ok(None),
    }
}

/// A whole number in hexadecimal, if that has fewer bytes than its text.
fn shorter(alloc: Global, number: i64, text: &str) -> Result<Option<String>, AllocError>
    ensures { IfOk result (λ other. shorter_number (number_payload number) (chars text.now)
        ≡ model.spelled other (chars text.now)) }
{
    let Ok(number) = u64::try_from(number) else {
        return Ok(None);
    };
    let other = hexadecimal(alloc, number)?;
    Ok(keep_shorter(other, text))
}

/// A number in hexadecimal.
fn hexadecimal(alloc: Global, number: u64) -> Result<String, AllocError>
    ensures { IfOk result (λ text. string_bytes text ≡ hexadecimal number) }
{
    Ok(format!(in alloc; "0x{number:x}")?)
}

/// A text, if it has fewer bytes than another.
fn keep_shorter(other: String, text: &str) -> Option<String>
    ensures { model.spelled result (chars text.now)
        ≡ (if nat_lt (length (string_bytes other)) (length text.now)
        then chars (string_bytes other) else chars text.now) }
{
    if other.len() < text.len() {
        Some(other)
    } else {
        None
    }
}

/// The other text of a token, if it has one.
pub(crate) fn spelled<'s>(other: &'s Option<String>, text: &'s str) -> &'s str
    ensures { chars result.now ≡ model.spelled other.now (chars text.now) }
{
    match other {
        Some(other) => other.as_str(),
        None => text,
    }
}
