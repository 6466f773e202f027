//! Texts and spans as JSON.

ghost use Rattle.std.specs.Prelude.{ℕ, ◌≡◌, ◌≢◌, ◌++◌, ◌<◌, true, false, length, slice_index, OnOk, MatchOption};
ghost use Rattle.std.specs.Fmt.{digit_glyph};
ghost use Rattle.wgsl_model_packed.specs.Json.{escaped, escaped_byte, span_json};
ghost use Rattle.wgsl_print_packed.specs.Escapes.{is_escaped, IsPlainTo, IsEscapeAt};

use itoa::Buffer;
use std::alloc::AllocError;

/// Writes where a span starts and ends.
pub(crate) fn write_span(start: u64, end: u64, out: &mut Vec<u8>) -> Result<(), AllocError>
    ensures { OnOk result (out.new.items ≡ out.old.items ++ span_json (record { start = start; end = end })) }
{
    let mut buffer = Buffer::new();
    out.push(b'[')?;
    out.extend_from_slice(buffer.format(start).as_bytes())?;
    out.push(b',')?;
    out.extend_from_slice(buffer.format(end).as_bytes())?;
    out.push(b']')?;
    Ok(())
}

/// Writes a text with the escapes of JSON.
pub(crate) fn write_escaped(text: &[u8], out: &mut Vec<u8>) -> Result<(), AllocError>
    ensures { OnOk result (out.new.items ≡ out.old.items ++ escaped text.now) }
{
    let mut left = text;
    'escapes: while let Some(at) = escape(left) {
        out.extend_from_slice(&left[..at])?;
        write_escape(left[at], out)?;
        left = &left[at + 1..];
    }
    out.extend_from_slice(left)?;
    Ok(())
}

/// Returns where the first byte with an escape is.
fn escape(text: &[u8]) -> Option<usize>
    ensures { MatchOption result (IsPlainTo text.now (length text.now)) (λ at.
        IsEscapeAt text.now at) }
{
    'bytes: for i in 0..text.len() {
        if is_escaped(text[i]) {
            return Some(i);
        }
    }
    None
}

/// Returns whether a byte has an escape.
fn is_escaped(byte: u8) -> bool
    ensures { result ≡ is_escaped byte }
{
    byte < 32 || byte == b'"' || byte == b'\\'
}

/// Writes the escape of a byte.
fn write_escape(byte: u8, out: &mut Vec<u8>) -> Result<(), AllocError>
    requires { is_escaped byte ≡ true }
    ensures { OnOk result (out.new.items ≡ out.old.items ++ escaped_byte byte) }
{
    match byte {
        b'"' => out.extend_from_slice(b"\\\""),
        b'\\' => out.extend_from_slice(b"\\\\"),
        _ => out.extend_from_slice(&[b'\\', b'u', b'0', b'0', digit(byte / 16), digit(byte % 16)]),
    }
}

/// Returns a hexadecimal digit.
fn digit(value: u8) -> u8
    requires { value < 16 }
    ensures { result ≡ digit_glyph false value }
{
    if value < 10 {
        b'0' + value
    } else {
        b'a' + (value - 10)
    }
}
