//! Digits and their value.

ghost use Rattle.std.specs.Prelude.{◌≡◌, ◌≤◌, ◌<◌, ◌+◌, ◌*◌, ℕ, chars, length};
ghost use Rattle.wgsl_lex_scanner.specs.Digits.{Fits, read_digits, skip_digits};

use crate::text::split_first;

/// The value with one digit more, unless it passes 64 bits.
fn with_digit(value: Option<u64>, radix: u32, digit: u32) -> Option<u64>
    requires low { 2 ≤ radix }
    requires high { radix ≤ 16 }
    requires digit { digit < radix }
    ensures { (n : ℕ) → Fits value n → Fits result (n * radix + digit) }
{
    value?
        .checked_mul(u64::from(radix))?
        .checked_add(u64::from(digit))
}

/// The value of the digits after a first one, unless it passes 64 bits, and what follows them.
#[tactic(auto, unfolding(crate::specs::Digits::skip_while, crate::specs::Digits::read_digits))]
pub(crate) fn read_digits(first: u32, radix: u32, text: &str) -> (Option<u64>, &str)
    requires low { 2 ≤ radix }
    requires high { radix ≤ 16 }
    ensures value { Fits result.0 (read_digits radix first (chars text.now)) }
    ensures rest { chars result.1.now ≡ skip_digits radix (chars text.now) }
    ensures within { length result.1.now ≤ length text.now }
{
    let mut value = Some(u64::from(first));
    let mut rest = text;
    while let Some((c, after)) = split_first(rest) {
        let Some(digit) = c.to_digit(radix) else {
            return (value, rest);
        };
        value = with_digit(value, radix, digit);
        rest = after;
    }
    (value, rest)
}

/// What follows the digits at the front.
#[tactic(auto, unfolding(crate::specs::Digits::skip_while))]
pub(crate) fn skip_digits(radix: u32, text: &str) -> &str
    requires low { 2 ≤ radix }
    requires high { radix ≤ 16 }
    ensures rest { chars result.now ≡ skip_digits radix (chars text.now) }
    ensures within { length result.now ≤ length text.now }
{
    let mut rest = text;
    while let Some((c, after)) = split_first(rest) {
        if !c.is_digit(radix) {
            return rest;
        }
        rest = after;
    }
    rest
}
