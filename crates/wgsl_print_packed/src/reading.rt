//! Texts and spans at the front of a packed form.

ghost use Rattle.std.specs.Prelude.{ℕ, List, ◌≡◌, ◌+◌, ◌++◌, ◌<◌, ◌^◌, ◌≤◌, ◌%◌, length, MatchResult, IfOk};
ghost use Rattle.grammar.specs.Tokens.{Span};
ghost use Rattle.wgsl_model_packed.specs.Printing.{packed_number, packed_span, packed_text};

use crate::error::PackedError;

/// Splits a number off the front of a form.
fn split_number(form: &[u8]) -> Result<(u64, &[u8]), PackedError>
    ensures read { IfOk result (λ p. form.now ≡ packed_number p.0 ++ p.1.now) }
    ensures number { (n : ℕ) (left : List ℕ) → form.now ≡ packed_number n ++ left →
        MatchResult result (λ p. (p.0 ≡ n % 2 ^ 64) × (p.1.now ≡ left)) (λ _. ⊥) }
    ensures length { IfOk result (λ p. length p.1.now + 8 ≡ length form.now) }
{
    match form.split_first_chunk::<8>() {
        Some((bytes, left)) => Ok((u64::from_le_bytes(*bytes), left)),
        None => Err(PackedError::NotPacked),
    }
}

/// Splits a text off the front of a form.
pub(crate) fn split_text(form: &[u8]) -> Result<(&[u8], &[u8]), PackedError>
    ensures read { IfOk result (λ p. form.now ≡ packed_text p.0.now ++ p.1.now) }
    ensures text { (text left : List ℕ) → form.now ≡ packed_text text ++ left →
        MatchResult result (λ p. (p.0.now ≡ text) × (p.1.now ≡ left)) (λ _. ⊥) }
    ensures shorter { IfOk result (λ p. length p.1.now ≤ length form.now) }
{
    let (size, left) = split_number(form)?;
    let (size, length) = (size as usize, left.len());
    if size > length {
        return Err(PackedError::NotPacked);
    }
    Ok(left.split_at(size))
}

/// Splits a span off the front of a form.
pub(crate) fn split_span(form: &[u8]) -> Result<(u64, u64, &[u8]), PackedError>
    ensures read { IfOk result (λ p.
        form.now ≡ packed_span (record { start = p.0; end = p.1 }) ++ p.2.now) }
    ensures span { (span : Span) (left : List ℕ) → form.now ≡ packed_span span ++ left →
        MatchResult result (λ p. (p.0 ≡ span.start % 2 ^ 64) × (p.1 ≡ span.end % 2 ^ 64)
        × (p.2.now ≡ left)) (λ _. ⊥) }
    ensures shorter { IfOk result (λ p. length p.2.now ≤ length form.now) }
{
    let (start, left) = split_number(form)?;
    let (end, left) = split_number(left)?;
    Ok((start, end, left))
}
