//! Numbers, texts and spans, and what comes after the number of a rule.

ghost use Rattle.std.specs.Prelude.{◌≡◌, ◌==◌, ◌++◌, ◌∷◌, [], OnOk, if◌then◌else◌};
ghost use Rattle.wgsl_span.specs.View.{span_view};
ghost use Rattle.wgsl_model_packed.specs.Printing.{packed_number, packed_span, packed_text};

use std::alloc::AllocError;
use wgsl_span::Span;

/// Writes the number of a rule.
pub fn pack_rule(rule: u8, out: &mut Vec<u8>) -> Result<(), AllocError>
    ensures { OnOk result (out.new.items ≡ out.old.items ++ (rule ∷ [])) }
{
    out.push(rule)?;
    Ok(())
}

/// Writes a number in 8 bytes, the lowest first.
fn pack_number(number: usize, out: &mut Vec<u8>) -> Result<(), AllocError>
    ensures { OnOk result (out.new.items ≡ out.old.items ++ packed_number number) }
{
    out.extend_from_slice(&(number as u64).to_le_bytes())
}

/// Writes a text: how many bytes it has, and these.
pub fn pack_text(text: &str, out: &mut Vec<u8>) -> Result<(), AllocError>
    ensures { OnOk result (out.new.items ≡ out.old.items ++ packed_text text.now) }
{
    pack_number(text.len(), out)?;
    out.extend_from_slice(text.as_bytes())
}

/// Writes the number of a rule, and a text.
pub fn pack_word(rule: u8, text: &str, out: &mut Vec<u8>) -> Result<(), AllocError>
    ensures { OnOk result (out.new.items ≡ out.old.items ++ (rule ∷ packed_text text.now)) }
{
    out.extend_from_slice(&with_number(rule, text.len()))?;
    out.extend_from_slice(text.as_bytes())
}

/// Returns the number of a rule, and a number in 8 bytes, the lowest first.
fn with_number(rule: u8, number: usize) -> [u8; 9]
    ensures { result ≡ rule ∷ packed_number number }
{
    let [a, b, c, d, e, f, g, h] = (number as u64).to_le_bytes();
    [rule, a, b, c, d, e, f, g, h]
}

/// Writes a span: where it starts, and where it ends.
pub fn pack_span(span: Span, out: &mut Vec<u8>) -> Result<(), AllocError>
    ensures { OnOk result (out.new.items ≡ out.old.items ++ packed_span (span_view span)) }
{
    out.extend_from_slice(&span_bytes(span))
}

/// Returns a span: where it starts, and where it ends.
fn span_bytes(span: Span) -> [u8; 16]
    ensures { result ≡ packed_span (span_view span) }
{
    let [a, b, c, d, e, f, g, h] = (span.start as u64).to_le_bytes();
    let [i, j, k, l, m, n, o, p] = (span.end as u64).to_le_bytes();
    [a, b, c, d, e, f, g, h, i, j, k, l, m, n, o, p]
}

/// Writes the number of a rule, and a span.
pub fn pack_placed(rule: u8, span: Span, out: &mut Vec<u8>) -> Result<(), AllocError>
    ensures { OnOk result (out.new.items
        ≡ out.old.items ++ (rule ∷ packed_span (span_view span))) }
{
    out.extend_from_slice(&with_span(rule, span))
}

/// Returns the number of a rule, and a span.
fn with_span(rule: u8, span: Span) -> [u8; 17]
    ensures { result ≡ rule ∷ packed_span (span_view span) }
{
    let [a, b, c, d, e, f, g, h] = (span.start as u64).to_le_bytes();
    let [i, j, k, l, m, n, o, p] = (span.end as u64).to_le_bytes();
    [rule, a, b, c, d, e, f, g, h, i, j, k, l, m, n, o, p]
}

/// Returns the rule of an item of a list, by how many items are after it.
pub fn item_rule(before: u8, last: u8, after: usize) -> u8
    ensures { result ≡ (if after == 0 then last else before) }
{
    if after == 0 { last } else { before }
}
