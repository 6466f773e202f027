//! The keys of properties, and words of a file.

ghost use Rattle.std.specs.Prelude.{◌≡◌};
ghost use Rattle.wgsl_editorconfig.specs.Keys.{is_word, key_of};

/// The key of a property.
#[derive(Clone, Copy, Debug, PartialEq, Eq)]
pub enum Key {
    Root,
    IndentStyle,
    IndentSize,
    TabWidth,
    MaxLineLength,
    EndOfLine,
}

impl Key {
    /// Returns the key with this name.
    pub fn of(name: &str) -> Option<Key>
        ensures { result ≡ key_of name.now }
    {
        if is_word(name, "root") {
            Some(Key::Root)
        } else if is_word(name, "indent_style") {
            Some(Key::IndentStyle)
        } else if is_word(name, "indent_size") {
            Some(Key::IndentSize)
        } else if is_word(name, "tab_width") {
            Some(Key::TabWidth)
        } else if is_word(name, "max_line_length") {
            Some(Key::MaxLineLength)
        } else if is_word(name, "end_of_line") {
            Some(Key::EndOfLine)
        } else {
            None
        }
    }
}

/// Returns whether a text is this word, in capitals or not.
pub fn is_word(text: &str, word: &str) -> bool
    ensures { result ≡ is_word word.now text.now }
{
    text.eq_ignore_ascii_case(word)
}
