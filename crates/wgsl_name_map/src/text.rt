//! Texts as JSON.

ghost use Rattle.std.specs.Prelude.{◌≡◌, ◌<◌, ◌++◌, codes};
ghost use Rattle.std.specs.Fmt.{WritesOnOk};
ghost use Rattle.std.specs.Char.{encode_utf8};
ghost use Rattle.std.specs.List.{list_all};
ghost use Rattle.wgsl_model_packed.specs.Json.{escaped};
ghost use Rattle.wgsl_name_map.specs.Texts.{control, is_plain, quoted};

use std::fmt;
use std::fmt::Write;

/// Whether each character of a text is written as it is.
fn is_plain(text: &str) -> bool
    ensures { result ≡ list_all is_plain text.now }
{
    text.as_bytes()
        .iter()
        .all(|b| *b >= 32 && *b != b'"' && *b != b'\\')
}

/// Writes a text as it is between quotation marks.
fn write_plain<W: fmt::Write>(text: &str, f: &mut fmt::Formatter<W>) -> fmt::Result
    ensures { WritesOnOk W.write_str_gives f.old result
        (codes "\"" ++ text.now ++ codes "\"") f.new }
{
    f.write_str("\"")?;
    f.write_str(text)?;
    f.write_str("\"")
}

/// Writes a text between quotation marks.
pub(crate) fn write_text<W: fmt::Write>(text: &str, f: &mut fmt::Formatter<W>) -> fmt::Result
    ensures { WritesOnOk W.write_str_gives f.old result (quoted text.now) f.new }
{
    if is_plain(text) {
        return write_plain(text, f);
    }
    f.write_str("\"")?;
    'text: for c in text.chars() {
        write_character(c, f)?;
    }
    f.write_str("\"")
}

/// Writes a character of a text: after a `\` if it is a quotation mark or a `\`, and by its number
/// if it is a control character.
fn write_character<W: fmt::Write>(c: char, f: &mut fmt::Formatter<W>) -> fmt::Result
    ensures { WritesOnOk W.write_str_gives f.old result (escaped (encode_utf8 c)) f.new }
{
    let number = u32::from(c);
    if number == 34 {
        return f.write_str("\\\"");
    }
    if number == 92 {
        return f.write_str("\\\\");
    }
    if number < 32 {
        return write_control(number, f);
    }
    f.write_char(c)
}

/// Writes a control character by its number.
fn write_control<W: fmt::Write>(number: u32, f: &mut fmt::Formatter<W>) -> fmt::Result
    requires { number < 32 }
    ensures { WritesOnOk W.write_str_gives f.old result (control number) f.new }
{
    write!(f, "\\u00{number:02x}")
}
