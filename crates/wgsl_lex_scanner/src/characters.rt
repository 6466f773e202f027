//! The classes of characters. ASCII is tested first.

ghost use Rattle.std.specs.Prelude.{◌≡◌, ◌==◌, ◌||◌, ◌&&◌, not, nat_lt};
ghost use Rattle.std.specs.Char.{is_ascii_alphanumeric, is_ascii_digit};
ghost use Rattle.unicode_ident.specs.Ident.{is_xid_start};
ghost use Rattle.wgsl_model.specs.Tokens.Characters.{is_blank, is_line_break};

// Each byte that is a character of a word is at its own place, and a dot at every other place.
static WORD_BYTES: [u8; 256] = *b"\
    ................................\
    ................0123456789......\
    .ABCDEFGHIJKLMNOPQRSTUVWXYZ...._\
    .abcdefghijklmnopqrstuvwxyz.....\
    ................................\
    ................................\
    ................................\
    ................................";

/// Returns whether a character is blank space.
pub fn is_blank(c: char) -> bool
    ensures { result ≡ is_blank c }
{
    c.is_whitespace() || c == '\u{200E}' || c == '\u{200F}'
}

/// Returns whether a character is a line break.
pub fn is_line_break(c: char) -> bool
    ensures { result ≡ is_line_break c }
{
    matches!(
        c,
        '\n' | '\u{B}' | '\u{C}' | '\r' | '\u{85}' | '\u{2028}' | '\u{2029}'
    )
}

#[tactic(auto, using(crate::proofs::CharacterClasses::starts))]
pub(crate) fn starts_word(c: char) -> bool
    ensures { result ≡ (is_xid_start c || c == 95) }
{
    if c.is_ascii() {
        return c.is_ascii_alphabetic() || c == '_';
    }
    unicode_ident::is_xid_start(c)
}

/// Whether a character is a digit or the point, with which a number may begin.
pub(crate) fn begins_number(c: char) -> bool
    ensures { result ≡ (is_ascii_digit c || c == 46) }
{
    c.is_ascii_digit() || c == '.'
}

/// Whether a byte is a blank character of ASCII.
pub(crate) fn is_blank_byte(byte: u8) -> bool
    ensures { result ≡ ((nat_lt 8 byte && nat_lt byte 14) || byte == 32) }
{
    byte == b' ' || (8 < byte && byte < 14)
}

/// Whether a byte is a character of ASCII with which no comment begins.
pub(crate) fn begins_no_comment(byte: u8) -> bool
    ensures { result ≡ (nat_lt byte 128 && not (byte == 47)) }
{
    byte.is_ascii() && byte != b'/'
}

/// Whether a byte is a character of ASCII that does not end a line.
pub(crate) fn is_line_byte(byte: u8) -> bool
    ensures { result ≡ (nat_lt byte 128 && not (nat_lt 9 byte && nat_lt byte 14)) }
{
    byte.is_ascii() && !(9 < byte && byte < 14)
}

/// Whether a byte is a character of ASCII that continues a word.
pub(crate) fn is_word_byte(byte: u8) -> bool
    ensures { result ≡ (is_ascii_alphanumeric byte || byte == 95) }
{
    WORD_BYTES[byte as usize] != b'.'
}
