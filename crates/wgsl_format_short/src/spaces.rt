//! What is between two tokens.

ghost use Rattle.std.specs.Prelude.{◌≡◌, chars};
ghost use Rattle.wgsl_lex_token.specs.View.{class_of_kind};
ghost use Rattle.wgsl_model.specs.Tokens.Trivia.{first_or_zero};
ghost use Rattle.wgsl_model_short.specs.Shortest.{gap};
ghost use Rattle.wgsl_model_short.specs.Spaces as model;

use unicode_ident::is_xid_continue;
use wgsl_lex_token::kind::TokenKind;

/// Whether a kind is a keyword, an identifier, a reserved word, a number or `_`.
fn is_word_or_number(kind: TokenKind) -> bool
    ensures { result ≡ model.is_word_or_number (class_of_kind kind) }
{
    let class = kind as u8;
    (TokenKind::KwAlias as u8 <= class && class <= TokenKind::F16 as u8)
        || class == TokenKind::SymUnderscore as u8
}

/// Whether a token of a kind may go on with a character.
fn goes_on(kind: TokenKind, next: char) -> bool
    ensures { result ≡ model.goes_on (class_of_kind kind) next }
{
    match kind {
        TokenKind::SymAnd => matches!(next, '&' | '='),
        TokenKind::SymOr => matches!(next, '|' | '='),
        TokenKind::SymPlus => matches!(next, '+' | '='),
        TokenKind::SymMinus => matches!(next, '-' | '=' | '>'),
        TokenKind::SymForwardSlash => matches!(next, '/' | '*' | '='),
        TokenKind::SymGreaterThan => matches!(next, '>' | '='),
        TokenKind::SymLessThan | TokenKind::TemplateArgsStart => matches!(next, '<' | '='),
        TokenKind::SymEqual
        | TokenKind::SymBang
        | TokenKind::SymStar
        | TokenKind::SymModulo
        | TokenKind::SymXor
        | TokenKind::SymShiftLeft
        | TokenKind::SymShiftRight => next == '=',
        TokenKind::SymPeriod => next.is_ascii_digit(),
        TokenKind::AbstractInt => next == '.' || is_xid_continue(next),
        _ => is_word_or_number(kind) && is_xid_continue(next),
    }
}

/// The first character of a text, or U+0000.
fn first(text: &str) -> char
    ensures { result ≡ first_or_zero (chars text.now) }
{
    text.chars().next().unwrap_or('\0')
}

/// What is between a token of a kind and the next token.
pub(crate) fn gap(last: TokenKind, next: &str) -> &'static str
    ensures { chars result.now ≡ gap (class_of_kind last) (chars next.now) }
{
    if goes_on(last, first(next)) { " " } else { "" }
}
