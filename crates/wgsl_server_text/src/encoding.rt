//! The units in which the characters of a line are counted.

ghost use Rattle.std.specs.Prelude.{◌≡◌, ◌≤◌, ◌==◌, ◌&&◌, ◌||◌, IfSome, length};
ghost use Rattle.std.specs.Str.{IsCharBoundary};
ghost use Rattle.wgsl_server_text.specs.Lines.{is_break};
ghost use Rattle.wgsl_server_text.specs.Positions.{is_first, units, width, bytes_before};

use crate::lines::is_break;

/// What a position's character counts: bytes, or units of UTF-16.
#[derive(Clone, Copy, Debug, PartialEq, Eq)]
pub enum PositionEncoding {
    Utf8,
    Utf16,
}

impl PositionEncoding {
    /// Returns how many units there are for a byte. Those of a character in UTF-16 are counted at
    /// its first byte.
    pub(crate) fn units(self, byte: u8) -> usize
        ensures { result ≡ units self byte }
    {
        match self {
            PositionEncoding::Utf8 => 1,
            PositionEncoding::Utf16 if !is_first(byte) => 0,
            PositionEncoding::Utf16 if byte < 0xf0 => 1,
            PositionEncoding::Utf16 => 2,
        }
    }

    /// Returns how many units some bytes have.
    #[tactic(auto, using(crate::proofs::Widths::width_step, crate::proofs::Widths::units_small))]
    pub(crate) fn width(self, bytes: &[u8]) -> usize
        ensures { result ≡ width self bytes.now }
    {
        let mut width = 0;
        for byte in bytes {
            width += self.units(*byte);
        }
        width
    }

    /// Returns how many bytes of a line there are before a character. `None` for a place inside of
    /// a character.
    #[tactic(auto, using(crate::proofs::Reached::found, crate::proofs::Reached::inside, crate::proofs::Reached::gone_on, crate::proofs::Reached::at_end))]
    pub(crate) fn bytes_before(self, line: &[u8], character: usize) -> Option<usize>
        ensures before { result ≡ bytes_before self character line.now }
        ensures within { IfSome result (λ n. n ≤ length line.now) }
        ensures boundary { IfSome result (λ n. IsCharBoundary line.now n) }
    {
        let mut left = character;
        for (at, byte) in line.iter().enumerate() {
            if is_reached(*byte, left) {
                return Some(at);
            }
            let units = self.units(*byte);
            if left < units {
                return None;
            }
            left -= units;
        }
        Some(line.len())
    }
}

/// Returns whether a character that is some units away is in front of a byte.
fn is_reached(byte: u8, left: usize) -> bool
    ensures { result ≡ (is_break byte || (left == 0 && is_first byte)) }
{
    is_break(byte) || (left == 0 && is_first(byte))
}

/// Returns whether a character begins with a byte.
fn is_first(byte: u8) -> bool
    ensures { result ≡ is_first byte }
{
    byte < 0x80 || byte >= 0xc0
}
