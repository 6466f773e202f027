//! Words: what is directly after `@`.

ghost use Rattle.std.specs.Prelude.{◌≡◌, IfOk, string_bytes};
ghost use Rattle.wgsl_read_cursor.specs.Words.{word_text};

use std::alloc::{AllocError, Global};

/// The word of a token: a name or a reserved word, which the token held, or a keyword.
#[derive(Drop)]
pub enum Word {
    Held(String),
    Keyword(&'static str),
}

impl Word {
    /// Returns the text.
    pub fn as_str(&self) -> &str
        ensures { result.now ≡ word_text self.now }
    {
        match self {
            Word::Held(text) => text.as_str(),
            Word::Keyword(text) => text,
        }
    }

    /// Returns the text as a string, which is copied for a keyword alone.
    pub fn into_string(self, alloc: Global) -> Result<String, AllocError>
        ensures { IfOk result (λ text. string_bytes text ≡ word_text self) }
    {
        match self {
            Word::Held(text) => Ok(text),
            Word::Keyword(text) => Ok(String::from_str(alloc, text)?),
        }
    }
}
