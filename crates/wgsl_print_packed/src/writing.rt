//! Line breaks and texts at a depth.

ghost use Rattle.std.specs.Prelude.{◌≡◌, ◌++◌, ◌∷◌, ◌+◌, length, OnOk, MatchOption};
ghost use Rattle.wgsl_model.specs.Printed.Indentation.{after_line_ends};
ghost use Rattle.wgsl_writer.specs.Depth.{spaces};
ghost use Rattle.wgsl_writer.specs.LineEnds.{IsLineEnd, IsOneLine};

use std::alloc::AllocError;

/// Writes a line break and the spaces of a depth.
pub(crate) fn break_line(depth: usize, out: &mut Vec<u8>) -> Result<(), AllocError>
    ensures { OnOk result (out.new.items ≡ out.old.items ++ (10 ∷ spaces depth)) }
{
    match depth {
        0 => out.extend_from_slice(b"\n"),
        1 => out.extend_from_slice(b"\n    "),
        2 => out.extend_from_slice(b"\n        "),
        3 => out.extend_from_slice(b"\n            "),
        _ => break_deep_line(depth, out),
    }
}

/// Writes a line break and the spaces of any depth.
fn break_deep_line(depth: usize, out: &mut Vec<u8>) -> Result<(), AllocError>
    ensures { OnOk result (out.new.items ≡ out.old.items ++ (10 ∷ spaces depth)) }
{
    out.extend_from_slice(b"\n")?;
    'levels: for _level in 0..depth {
        out.extend_from_slice(b"    ")?;
    }
    Ok(())
}

/// Writes a text with the spaces of a depth after each LF.
pub(crate) fn write_lines(text: &[u8], depth: usize, out: &mut Vec<u8>) -> Result<(), AllocError>
    ensures { OnOk result (out.new.items ≡
        out.old.items ++ after_line_ends (spaces depth) text.now) }
{
    let mut left = text;
    'lines: while let Some(at) = line_end(left) {
        out.extend_from_slice(&left[..at])?;
        break_line(depth, out)?;
        left = &left[at + 1..];
    }
    out.extend_from_slice(left)?;
    Ok(())
}

/// Returns where the first LF of a text is.
fn line_end(text: &[u8]) -> Option<usize>
    ensures { MatchOption result (IsOneLine text.now (length text.now)) (λ at.
        IsLineEnd text.now at) }
{
    'bytes: for i in 0..text.len() {
        if text[i] == b'\n' {
            return Some(i);
        }
    }
    None
}
