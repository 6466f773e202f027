//! What a value says.

ghost use Rattle.std.specs.Prelude.{◌≡◌};
ghost use Rattle.wgsl_editorconfig.specs.Values as plain;

use crate::key::is_word;
use wgsl_choices::{IndentSize, IndentStyle, Newlines, read_size, read_width};

/// Returns what a value says, where it is understood as this: `unset` says that there is none.
pub fn said<T: Copy>(value: &str, understood: Option<T>) -> Option<Option<T>>
    ensures { result ≡ plain.said value.now understood }
{
    if is_word(value, "unset") {
        return Some(None);
    }
    match understood {
        Some(meant) => Some(Some(meant)),
        None => None,
    }
}

/// Returns whether files in the folders above are not read.
pub fn root_of(value: &str) -> Option<bool>
    ensures { result ≡ plain.root_of value.now }
{
    if is_word(value, "true") {
        Some(true)
    } else if is_word(value, "false") {
        Some(false)
    } else {
        None
    }
}

/// Returns what a line is indented with.
pub fn style_of(value: &str) -> Option<IndentStyle>
    ensures { result ≡ plain.style_of value.now }
{
    if is_word(value, "tab") {
        Some(IndentStyle::Tab)
    } else if is_word(value, "space") {
        Some(IndentStyle::Spaces)
    } else {
        None
    }
}

/// Returns how many columns an indentation has.
pub fn indent_size_of(value: &str) -> Option<IndentSize>
    ensures { result ≡ plain.indent_size_of value.now }
{
    if is_word(value, "tab") {
        return Some(IndentSize::Tab);
    }
    let columns = read_size(value)?;
    Some(IndentSize::Columns(columns))
}

/// Returns how many columns a tab has.
pub fn tab_width_of(value: &str) -> Option<u8>
    ensures { result ≡ plain.tab_width_of value.now }
{
    read_size(value)
}

/// Returns how many columns a line has at most.
pub fn line_length_of(value: &str) -> Option<usize>
    ensures { result ≡ plain.line_length_of value.now }
{
    if is_word(value, "off") {
        return Some(0);
    }
    read_width(value)
}

/// Returns what ends a line.
pub fn newlines_of(value: &str) -> Option<Newlines>
    ensures { result ≡ plain.newlines_of value.now }
{
    if is_word(value, "lf") {
        Some(Newlines::Lf)
    } else if is_word(value, "crlf") {
        Some(Newlines::CrLf)
    } else {
        None
    }
}
