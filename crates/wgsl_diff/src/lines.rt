//! The lines of a text.

ghost use Rattle.std.specs.Prelude.{◌≡◌, IfOk};
ghost use Rattle.wgsl_diff.specs.Lines.{lines_of};
ghost use Rattle.wgsl_diff.specs.View.{texts_of};

use std::alloc::{AllocError, Global};

/// Returns the lines of a text, each with its LF.
pub fn lines_of(alloc: Global, text: &[u8]) -> Result<Vec<&[u8]>, AllocError>
    ensures { IfOk result (λ lines. texts_of lines.items ≡ lines_of text.now) }
{
    let mut lines = Vec::new(alloc);
    let mut start = 0;
    for (at, byte) in text.iter().enumerate() {
        if *byte == b'\n' {
            lines.push(&text[start..at + 1])?;
            start = at + 1;
        }
    }
    if start < text.len() {
        lines.push(&text[start..])?;
    }
    Ok(lines)
}
