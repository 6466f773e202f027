//! Positions and offsets in a text whose lines are known.

ghost use Rattle.std.specs.Prelude.{◌≡◌, ◌≤◌, IfSome, length};
ghost use Rattle.std.specs.Str.{IsCharBoundary};
ghost use Rattle.wgsl_server_text.specs.Lines.{line_starts};
ghost use Rattle.wgsl_server_text.specs.Positions.{position_at, offset_at};

use crate::encoding::PositionEncoding;
use crate::lines::line_of;
use crate::position::Position;

/// Returns the position of an offset in a text whose lines begin at these places.
pub(crate) fn position_in(
    encoding: PositionEncoding,
    text: &[u8],
    starts: &[usize],
    offset: usize,
) -> Position
    requires lines { starts.now ≡ line_starts text.now }
    requires within { offset ≤ length text.now }
    ensures { result ≡ position_at encoding text.now offset }
{
    let line = line_of(starts, offset);
    let character = encoding.width(&text[starts[line]..offset]);
    Position { line, character }
}

/// Returns the offset of a position in a text whose lines begin at these places.
#[tactic(auto, using(crate::proofs::LineStarts::past_lines, crate::proofs::LineStarts::start_within))]
pub(crate) fn offset_in(
    encoding: PositionEncoding,
    text: &[u8],
    starts: &[usize],
    position: Position,
) -> Option<usize>
    requires { starts.now ≡ line_starts text.now }
    ensures offset { result ≡ offset_at encoding text.now position }
    ensures boundary { IfSome result (λ offset. IsCharBoundary text.now offset) }
{
    if position.line >= starts.len() {
        return None;
    }
    let start = starts[position.line];
    let line = &text[start..];
    match encoding.bytes_before(line, position.character) {
        Some(before) => Some(start + before),
        None => None,
    }
}
