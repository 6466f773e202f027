//! Laws of positions, each the contract of a function that takes nothing and does nothing.

ghost use Rattle.std.specs.Prelude.{◌≡◌, ◌≤◌, ℕ, List, Some, length, nat_lt, if◌then◌else◌};
ghost use Rattle.std.specs.Char.{encode_utf8};
ghost use Rattle.wgsl_server_text.specs.Edits.{offsets_of, range_at};
ghost use Rattle.wgsl_server_text.specs.Positions.{width, position_at, offset_at, IsBorder};
ghost use Rattle.wgsl_server_text.specs.declared.encoding.PositionEncoding.{PositionEncoding};
ghost use Rattle.wgsl_server_text.specs.declared.encoding.PositionEncoding.TheVariants as encoding;

/// The units of a text in UTF-8 are its bytes. A character has one in UTF-16, and two from U+10000
/// on.
pub fn units_of_characters()
    ensures utf8 { (text : List ℕ) → width encoding.Utf8 text ≡ length text }
    ensures utf16 { (c : ℕ) → width encoding.Utf16 (encode_utf8 c) ≡ (if nat_lt c 65536 then 1 else 2) }
{}

/// The offset of the position of a border between characters is that border.
pub fn offsets_and_back()
    ensures { (e : PositionEncoding) (text : List ℕ) (offset : ℕ) → IsBorder text offset
        → offset_at e text (position_at e text offset) ≡ Some offset }
{}

/// The offsets of the range between two borders are these.
pub fn ranges_and_back()
    ensures { (e : PositionEncoding) (text : List ℕ) (start end : ℕ) → IsBorder text start → IsBorder text end
        → start ≤ end → offsets_of e text (range_at e text start end) ≡ Some (start, end) }
{}
