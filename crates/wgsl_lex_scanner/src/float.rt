//! Floats: their parts after the first digits.

ghost use Rattle.std.specs.Prelude.{◌≡◌, ◌≤◌, chars, length, IfSome, Some};
ghost use Rattle.wgsl_lex_scanner.specs.ScannedNumbers.{number_by_class, float_suffix, exponent_digits, scan_exponent, fraction, decimal_float, point, hexadecimal_fraction, hexadecimal_float, hexadecimal_point};
ghost use Rattle.wgsl_lex_scanner.specs.Parts.{float_class, float_view, optional_float_view};
ghost use Rattle.wgsl_lex_scanner.specs.View.{lexeme_view};

use crate::digits::skip_digits;
use crate::lexeme::Lexeme;
use crate::text::{split_first, without_last};

/// The type of a float, which depends on its suffix.
#[derive(Clone, Copy)]
pub(crate) enum FloatType {
    AbstractFloat,
    F32,
    F16,
}

impl FloatType {
    /// The token of a float, which keeps its spelling without the suffix.
    pub(crate) fn lexeme<'s>(self, spelling: &'s str) -> Lexeme<'s>
        ensures { Some (lexeme_view result)
            ≡ number_by_class (float_class self) (chars spelling.now) }
    {
        match self {
            FloatType::AbstractFloat => Lexeme::AbstractFloat(spelling),
            FloatType::F32 => Lexeme::F32(without_last(spelling)),
            FloatType::F16 => Lexeme::F16(without_last(spelling)),
        }
    }
}

/// The type of a float by the suffix that follows, and what follows it.
fn float_suffix(text: &str) -> (FloatType, &str)
    ensures value { float_view result ≡ float_suffix (chars text.now) }
    ensures within { length result.1.now ≤ length text.now }
{
    match split_first(text) {
        Some(('f', after)) => (FloatType::F32, after),
        Some(('h', after)) => (FloatType::F16, after),
        _ => (FloatType::AbstractFloat, text),
    }
}

/// A float after the sign of its exponent, none where no digit follows.
fn exponent_digits(text: &str) -> Option<(FloatType, &str)>
    ensures value { optional_float_view result ≡ exponent_digits (chars text.now) }
    ensures within { IfSome result (λ found. length found.1.now ≤ length text.now) }
{
    let (c, after) = split_first(text)?;
    if !c.is_digit(10) {
        return None;
    }
    Some(float_suffix(skip_digits(10, after)))
}

/// A float after the letter of its exponent, none where the exponent has no digit.
fn exponent(text: &str) -> Option<(FloatType, &str)>
    ensures value { optional_float_view result ≡ scan_exponent (chars text.now) }
    ensures within { IfSome result (λ found. length found.1.now ≤ length text.now) }
{
    match split_first(text) {
        Some(('+' | '-', after)) => exponent_digits(after),
        _ => exponent_digits(text),
    }
}

/// A decimal float after its point.
fn fraction(text: &str) -> (FloatType, &str)
    ensures value { float_view result ≡ fraction (chars text.now) }
    ensures within { length result.1.now ≤ length text.now }
{
    let rest = skip_digits(10, text);
    match split_first(rest) {
        Some(('e' | 'E', after)) => exponent(after).unwrap_or((FloatType::AbstractFloat, rest)),
        _ => float_suffix(rest),
    }
}

/// A decimal float after the digits that begin it, none where they are a whole number.
pub(crate) fn decimal_float(text: &str) -> Option<(FloatType, &str)>
    ensures value { optional_float_view result ≡ decimal_float (chars text.now) }
    ensures within { IfSome result (λ found. length found.1.now ≤ length text.now) }
{
    match split_first(text)? {
        ('.', after) => Some(fraction(after)),
        ('e' | 'E', after) => exponent(after),
        ('f', after) => Some((FloatType::F32, after)),
        ('h', after) => Some((FloatType::F16, after)),
        _ => None,
    }
}

/// A decimal float after the point that begins it, none where no digit follows.
pub(crate) fn point(text: &str) -> Option<(FloatType, &str)>
    ensures value { optional_float_view result ≡ point (chars text.now) }
    ensures within { IfSome result (λ found. length found.1.now ≤ length text.now) }
{
    let (c, after) = split_first(text)?;
    if !c.is_digit(10) {
        return None;
    }
    Some(fraction(after))
}

/// A hexadecimal float after its point: a suffix follows only an exponent.
fn hexadecimal_fraction(text: &str) -> (FloatType, &str)
    ensures value { float_view result ≡ hexadecimal_fraction (chars text.now) }
    ensures within { length result.1.now ≤ length text.now }
{
    let rest = skip_digits(16, text);
    match split_first(rest) {
        Some(('p' | 'P', after)) => exponent(after).unwrap_or((FloatType::AbstractFloat, rest)),
        _ => (FloatType::AbstractFloat, rest),
    }
}

/// A hexadecimal float after the digits that begin it, none where they are a whole number.
pub(crate) fn hexadecimal_float(text: &str) -> Option<(FloatType, &str)>
    ensures value { optional_float_view result ≡ hexadecimal_float (chars text.now) }
    ensures within { IfSome result (λ found. length found.1.now ≤ length text.now) }
{
    match split_first(text)? {
        ('.', after) => Some(hexadecimal_fraction(after)),
        ('p' | 'P', after) => exponent(after),
        _ => None,
    }
}

/// A hexadecimal float after the point that follows `0x`, none where no digit follows.
pub(crate) fn hexadecimal_point(text: &str) -> Option<(FloatType, &str)>
    ensures value { optional_float_view result ≡ hexadecimal_point (chars text.now) }
    ensures within { IfSome result (λ found. length found.1.now ≤ length text.now) }
{
    let (c, after) = split_first(text)?;
    if !c.is_digit(16) {
        return None;
    }
    Some(hexadecimal_fraction(after))
}
