//! The languages that are recognised.

/// A language whose texts are recognised. Nothing is checked in either.
#[derive(Clone, Copy)]
pub enum Dialect {
    /// The language that is parsed: a reserved word is a name.
    Parsed,
    /// The smaller language of `recognize_str`.
    Recognized,
}
