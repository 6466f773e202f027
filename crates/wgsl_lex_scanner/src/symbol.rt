//! Symbols: each is made where it is read, the longest that fits.

ghost use Rattle.std.specs.Prelude.{◌≡◌, ◌≤◌, chars, length, IfSome};
ghost use Rattle.wgsl_lex_token.specs.View.{class_of_kind};
ghost use Rattle.wgsl_lex_scanner.specs.Scanning.{with_equal, doubled, minus, angle, symbol_at};
ghost use Rattle.wgsl_lex_scanner.specs.Parts.{kind_and_rest, scanned_symbol_view};

use crate::text::split_first;
use wgsl_lex_token::kind::TokenKind;

/// A symbol that `=` may follow.
fn with_equal(text: &str, equal: TokenKind, alone: TokenKind) -> (TokenKind, &str)
    ensures value { kind_and_rest result
        ≡ with_equal (class_of_kind equal) (class_of_kind alone) (chars text.now) }
    ensures within { length result.1.now ≤ length text.now }
{
    match split_first(text) {
        Some(('=', after)) => (equal, after),
        _ => (alone, text),
    }
}

/// A symbol that `=` or itself may follow.
fn doubled(
    text: &str,
    own: char,
    twice: TokenKind,
    equal: TokenKind,
    alone: TokenKind,
) -> (TokenKind, &str)
    ensures value { kind_and_rest result ≡ doubled own
        (class_of_kind twice) (class_of_kind equal) (class_of_kind alone) (chars text.now) }
    ensures within { length result.1.now ≤ length text.now }
{
    match split_first(text) {
        Some((c, after)) if c == own => (twice, after),
        Some(('=', after)) => (equal, after),
        _ => (alone, text),
    }
}

/// `-` and what may follow it.
fn minus(text: &str) -> (TokenKind, &str)
    ensures value { kind_and_rest result ≡ minus (chars text.now) }
    ensures within { length result.1.now ≤ length text.now }
{
    match split_first(text) {
        Some(('>', after)) => (TokenKind::SymArrow, after),
        Some(('-', after)) => (TokenKind::SymMinusMinus, after),
        Some(('=', after)) => (TokenKind::SymMinusEqual, after),
        _ => (TokenKind::SymMinus, text),
    }
}

/// `<` or `>` and what may follow it.
fn angle(
    text: &str,
    own: char,
    shift_assign: TokenKind,
    shift: TokenKind,
    equal: TokenKind,
    alone: TokenKind,
) -> (TokenKind, &str)
    ensures value { kind_and_rest result ≡ angle own (class_of_kind shift_assign)
        (class_of_kind shift) (class_of_kind equal) (class_of_kind alone) (chars text.now) }
    ensures within { length result.1.now ≤ length text.now }
{
    match split_first(text) {
        Some((c, after)) if c == own => with_equal(after, shift_assign, shift),
        Some(('=', after)) => (equal, after),
        _ => (alone, text),
    }
}

/// The symbol that begins with a character, and the text after it.
pub(crate) fn symbol(c: char, rest: &str) -> Option<(TokenKind, &str)>
    ensures value { scanned_symbol_view result ≡ symbol_at c (chars rest.now) }
    ensures within { IfSome result (λ found. length found.1.now ≤ length rest.now) }
{
    use TokenKind::*;
    match c {
        '&' => Some(doubled(rest, '&', SymAndAnd, SymAndEqual, SymAnd)),
        '|' => Some(doubled(rest, '|', SymOrOr, SymOrEqual, SymOr)),
        '+' => Some(doubled(rest, '+', SymPlusPlus, SymPlusEqual, SymPlus)),
        '-' => Some(minus(rest)),
        '<' => Some(angle(
            rest,
            '<',
            SymShiftLeftAssign,
            SymShiftLeft,
            SymLessThanEqual,
            SymLessThan,
        )),
        '>' => Some(angle(
            rest,
            '>',
            SymShiftRightAssign,
            SymShiftRight,
            SymGreaterThanEqual,
            SymGreaterThan,
        )),
        '=' => Some(with_equal(rest, SymEqualEqual, SymEqual)),
        '!' => Some(with_equal(rest, SymNotEqual, SymBang)),
        '*' => Some(with_equal(rest, SymTimesEqual, SymStar)),
        '/' => Some(with_equal(rest, SymDivisionEqual, SymForwardSlash)),
        '%' => Some(with_equal(rest, SymModuloEqual, SymModulo)),
        '^' => Some(with_equal(rest, SymXorEqual, SymXor)),
        '@' => Some((SymAttr, rest)),
        '[' => Some((SymBracketLeft, rest)),
        ']' => Some((SymBracketRight, rest)),
        '{' => Some((SymBraceLeft, rest)),
        '}' => Some((SymBraceRight, rest)),
        '(' => Some((SymParenLeft, rest)),
        ')' => Some((SymParenRight, rest)),
        ':' => Some((SymColon, rest)),
        ',' => Some((SymComma, rest)),
        ';' => Some((SymSemicolon, rest)),
        '.' => Some((SymPeriod, rest)),
        '~' => Some((SymTilde, rest)),
        _ => None,
    }
}
