//! Words: keywords, reserved words and identifiers.

ghost use Rattle.std.specs.Prelude.{◌≡◌, ◌≤◌, ◌<◌, chars, length, IfSome, MatchOption};
ghost use Rattle.wgsl_model.specs.Tokens.Raw.{kind_of_word};
ghost use Rattle.wgsl_lex_scanner.specs.Scanning.{after_word};
ghost use Rattle.wgsl_lex_scanner.specs.View.{lexeme_view};

use crate::characters::is_word_byte;
use crate::lexeme::Lexeme;
use crate::text::split_first;
use crate::word_table::{Meaning, listed};
use wgsl_lex_token::kind::TokenKind;

/// The text after a first character that continues a word.
#[tactic(auto, unfolding(crate::specs::Digits::skip_while))]
fn after_word_character(text: &str) -> Option<&str>
    ensures step { MatchOption result (after_word (chars text.now) ≡ chars text.now) (λ after.
        after_word (chars text.now) ≡ after_word (chars after.now)) }
    ensures shorter { IfSome result (λ after. length after.now < length text.now) }
{
    let first = *text.as_bytes().first()?;
    if is_word_byte(first) {
        return Some(&text[1..]);
    }
    if first.is_ascii() {
        return None;
    }
    let (c, after) = split_first(text)?;
    if unicode_ident::is_xid_continue(c) {
        Some(after)
    } else {
        None
    }
}

/// The text after the characters that continue a word.
pub(crate) fn after_word(text: &str) -> &str
    ensures rest { chars result.now ≡ after_word (chars text.now) }
    ensures within { length result.now ≤ length text.now }
{
    let mut rest = text;
    while let Some(after) = after_word_character(rest) {
        rest = after;
    }
    rest
}

/// The token of a word.
pub(crate) fn word(text: &str) -> Lexeme<'_>
    ensures { lexeme_view result ≡ kind_of_word text.now }
{
    if text == "_" {
        return Lexeme::Plain(TokenKind::SymUnderscore);
    }
    match listed(text) {
        Some(Meaning::Keyword(kind)) => Lexeme::Plain(kind),
        Some(Meaning::Reserved) => Lexeme::ReservedWord(text),
        None => Lexeme::Ident(text),
    }
}
