//! Numbers.

ghost use Rattle.std.specs.Prelude.{◌≡◌, ◌≤◌, ◌<◌, ◌^◌, ℕ, chars, length, IfSome, option_map, pos};
ghost use Rattle.wgsl_model.specs.Tokens.ClassTable.{AbstractInt, I32, U32};
ghost use Rattle.wgsl_model.specs.Tokens.Numbers.{number_below};
ghost use Rattle.wgsl_lex_scanner.specs.Digits.{Fits};
ghost use Rattle.wgsl_lex_scanner.specs.ScannedNumbers.{number_kind, suffixed, decimal, after_zero, scan_hexadecimal, number};
ghost use Rattle.wgsl_lex_scanner.specs.Parts.{whole_kind, number_view, number_and_rest, optional_number_view};
ghost use Rattle.wgsl_lex_scanner.specs.View.{lexeme_view};

use crate::characters::begins_number;
use crate::digits::{read_digits, skip_digits};
use crate::float::{FloatType, decimal_float, hexadecimal_float, hexadecimal_point, point};
use crate::lexeme::Lexeme;
use crate::text::split_first;

/// A number that was read: a whole one by its value, none where it does not fit its type, or a float by its type.
#[derive(Clone, Copy)]
pub(crate) enum NumericLiteral {
    AbstractInt(Option<i64>),
    I32(Option<i32>),
    U32(Option<u32>),
    Float(FloatType),
}

impl NumericLiteral {
    /// The token of a number by its spelling, none where it does not fit its type.
    pub(crate) fn lexeme<'s>(self, spelling: &'s str) -> Option<Lexeme<'s>>
        ensures { option_map lexeme_view result
            ≡ number_kind (number_view self) (chars spelling.now) }
    {
        match self {
            NumericLiteral::AbstractInt(value) => Some(Lexeme::AbstractInt(value?)),
            NumericLiteral::I32(value) => Some(Lexeme::I32(value?)),
            NumericLiteral::U32(value) => Some(Lexeme::U32(value?)),
            NumericLiteral::Float(float_type) => Some(float_type.lexeme(spelling)),
        }
    }
}

fn abstract_int(value: Option<u64>) -> Option<i64>
    ensures { (n : ℕ) →
        Fits value n → option_map (whole_kind AbstractInt) result ≡ number_below AbstractInt (2 ^ 63) n }
{
    let number = value?;
    if number < 1 << 63 {
        Some(number as i64)
    } else {
        None
    }
}

fn i32_value(value: Option<u64>) -> Option<i32>
    ensures { (n : ℕ) → Fits value n → option_map (whole_kind I32) result ≡ number_below I32 (2 ^ 31) n }
{
    let number = value?;
    if number < 1 << 31 {
        Some(number as i32)
    } else {
        None
    }
}

fn u32_value(value: Option<u64>) -> Option<u32>
    ensures { (n : ℕ) →
        Fits value n → option_map (λ m. whole_kind U32 (pos m)) result ≡ number_below U32 (2 ^ 32) n }
{
    let number = value?;
    if number < 1 << 32 {
        Some(number as u32)
    } else {
        None
    }
}

/// The whole number of a value by the suffix that follows, and what follows it.
fn suffixed(value: Option<u64>, text: &str) -> (NumericLiteral, &str)
    ensures value { (n : ℕ) → Fits value n → number_and_rest result ≡ suffixed n (chars text.now) }
    ensures within { length result.1.now ≤ length text.now }
{
    match split_first(text) {
        Some(('i', after)) => (NumericLiteral::I32(i32_value(value)), after),
        Some(('u', after)) => (NumericLiteral::U32(u32_value(value)), after),
        _ => (NumericLiteral::AbstractInt(abstract_int(value)), text),
    }
}

/// A decimal number after its digits: those of a float, or those of a whole number of a value.
fn decimal<'s>(
    digits_rest: &'s str,
    value: Option<u64>,
    whole_rest: &'s str,
) -> (NumericLiteral, &'s str)
    ensures value { (n : ℕ) → Fits value n →
        number_and_rest result ≡ decimal (chars digits_rest.now) n (chars whole_rest.now) }
    ensures within { (n : ℕ) →
        length digits_rest.now ≤ n → length whole_rest.now ≤ n → length result.1.now ≤ n }
{
    match decimal_float(digits_rest) {
        Some((float_type, after)) => (NumericLiteral::Float(float_type), after),
        None => suffixed(value, whole_rest),
    }
}

/// A hexadecimal number after `0x`, none where no digit follows.
fn hexadecimal(text: &str) -> Option<(NumericLiteral, &str)>
    ensures value { optional_number_view result ≡ scan_hexadecimal (chars text.now) }
    ensures within { IfSome result (λ found. length found.1.now ≤ length text.now) }
{
    let (c, after) = split_first(text)?;
    if c == '.' {
        let (float_type, rest) = hexadecimal_point(after)?;
        return Some((NumericLiteral::Float(float_type), rest));
    }
    let (value, rest) = read_digits(c.to_digit(16)?, 16, after);
    match hexadecimal_float(rest) {
        Some((float_type, after)) => Some((NumericLiteral::Float(float_type), after)),
        None => Some(suffixed(value, rest)),
    }
}

/// A number after a first digit `0`: the digits that follow belong to it only where it is a float.
fn after_zero(text: &str) -> (NumericLiteral, &str)
    ensures value { number_and_rest result ≡ after_zero (chars text.now) }
    ensures within { length result.1.now ≤ length text.now }
{
    match split_first(text) {
        Some(('x' | 'X', digits)) => hexadecimal(digits).unwrap_or((
            NumericLiteral::AbstractInt(Some(0)),
            text,
        )),
        _ => decimal(skip_digits(10, text), Some(0), text),
    }
}

/// The number that begins with a digit or a point, and the text after it; none where no number does.
fn number_after(c: char, text: &str) -> Option<(NumericLiteral, &str)>
    ensures value { optional_number_view result ≡ number c (chars text.now) }
    ensures within { IfSome result (λ found. length found.1.now ≤ length text.now) }
{
    if c == '.' {
        let (float_type, after) = point(text)?;
        return Some((NumericLiteral::Float(float_type), after));
    }
    if c == '0' {
        return Some(after_zero(text));
    }
    let (value, rest) = read_digits(c.to_digit(10)?, 10, text);
    Some(decimal(rest, value, rest))
}

/// The number that begins with a character, and the text after it; none where no number does.
pub(crate) fn number(c: char, text: &str) -> Option<(NumericLiteral, &str)>
    ensures value { optional_number_view result ≡ number c (chars text.now) }
    ensures within { IfSome result (λ found. length found.1.now ≤ length text.now) }
{
    if begins_number(c) {
        return number_after(c, text);
    }
    None
}
