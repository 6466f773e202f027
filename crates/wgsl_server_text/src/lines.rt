//! Where the lines of a text begin.

ghost use Rattle.std.specs.Prelude.{◌≡◌, ◌+◌, ◌<◌, ◌≤◌, IfOk, length, drop, slice_index};
ghost use Rattle.wgsl_server_text.specs.Lines.{is_break, begins_with_line_feed, ends_line, line_starts};

use std::alloc::{AllocError, Global};

/// Returns whether a byte is one of a line break.
pub(crate) fn is_break(byte: u8) -> bool
    ensures { result ≡ is_break byte }
{
    byte == b'\n' || byte == b'\r'
}

/// Returns where the lines of a text begin.
#[tactic(auto, using(crate::proofs::Starts::line_read, crate::proofs::Starts::byte_read, crate::proofs::Starts::all_read))]
pub(crate) fn line_starts(alloc: Global, text: &[u8]) -> Result<Vec<usize>, AllocError>
    ensures { IfOk result (λ starts. starts.items ≡ line_starts text.now) }
{
    let mut starts = Vec::new(alloc);
    starts.push(0)?;
    for at in 0..text.len() {
        if ends_line(text, at) {
            starts.push(at + 1)?;
        }
    }
    Ok(starts)
}

/// Returns whether a line ends after a byte.
fn ends_line(text: &[u8], at: usize) -> bool
    requires { at < length text.now }
    ensures { result ≡ ends_line (slice_index text.now at) (drop (at + 1) text.now) }
{
    text[at] == b'\n' || (text[at] == b'\r' && !has_line_feed(text, at + 1))
}

/// Returns whether a text has an LF at a place.
fn has_line_feed(text: &[u8], at: usize) -> bool
    ensures { result ≡ begins_with_line_feed (drop at text.now) }
{
    at < text.len() && text[at] == b'\n'
}

/// Returns the line that has an offset, of lines that begin at these.
pub(crate) fn line_of(starts: &[usize], offset: usize) -> usize
    requires some { 0 < length starts.now }
    requires first { slice_index starts.now 0 ≤ offset }
    ensures within { result < length starts.now }
    ensures from { slice_index starts.now result ≤ offset }
    ensures below { result + 1 < length starts.now → offset < slice_index starts.now (result + 1) }
{
    let mut line = 0;
    let mut end = starts.len();
    while end - line > 1 {
        let middle = line + (end - line) / 2;
        if starts[middle] <= offset {
            line = middle;
        } else {
            end = middle;
        }
    }
    line
}
