//! What one line of a file is.

ghost use Rattle.std.specs.Prelude.{◌≡◌};
ghost use Rattle.std.specs.Option.{option_copied};
ghost use Rattle.wgsl_editorconfig.specs.Lines as plain;
ghost use Rattle.wgsl_editorconfig.specs.View.{line_view};

use crate::key::Key;

/// A line of a file, by its kind.
#[derive(Clone, Copy)]
pub enum Line<'a> {
    /// The head of a section, with its glob.
    Section(&'a str),
    /// A property and its value.
    Property(Key, &'a str),
    /// It is empty, a comment or something else.
    Other,
}

impl<'a> Line<'a> {
    /// Returns what a line is, without the blanks around it.
    pub fn of(text: &'a str) -> Self
        ensures { line_view result ≡ plain.line_of text.now }
    {
        if text.starts_with('#') || text.starts_with(';') {
            return Line::Other;
        }
        match section_of(text) {
            Some(glob) => Line::Section(glob),
            None => Line::property_of(text),
        }
    }

    /// What a line with a key and a value is.
    fn property_of(text: &'a str) -> Self
        ensures { line_view result ≡ plain.property_of text.now }
    {
        match text.split_once('=') {
            Some((name, value)) => match Key::of(name.trim()) {
                Some(key) => Line::Property(key, value.trim()),
                None => Line::Other,
            },
            None => Line::Other,
        }
    }
}

/// The glob of a section, which is in brackets.
fn section_of(text: &str) -> Option<&str>
    ensures { option_copied result ≡ plain.section_of text.now }
{
    text.strip_prefix('[')?.strip_suffix(']')
}

/// Returns a text without the byte order mark that it may begin with.
pub fn without_mark(text: &str) -> &str
    ensures { result.now ≡ plain.without_mark text.now }
{
    match text.strip_prefix("\u{feff}") {
        Some(rest) => rest,
        None => text,
    }
}
