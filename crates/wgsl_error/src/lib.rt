//! What can be wrong with a text, and how it is told.
#![tactic(auto)]

mod clones;
mod conversions;
mod display;
mod in_file;
mod snippet;

pub use display::WithoutExpected;
pub use in_file::{ErrorInFile, MessageInFile};
pub use snippet::ErrorWithSource;
use wgsl_span::Span;

/// The kinds of errors of a text.
#[derive(PartialEq, Debug, Drop)]
pub enum ErrorKind {
    InvalidToken,
    ReservedWord(String),
    UnexpectedToken {
        token: String,
        expected: Vec<String>,
    },
    UnexpectedEof {
        expected: Vec<String>,
    },
    /// No parser reports this one.
    ExtraToken(String),
    DiagnosticSeverity,
    /// An attribute and what is wrong with its arguments.
    Attribute(&'static str, &'static str),
    VarTemplate(&'static str),
    OutOfMemory,
}

/// The kinds of errors of a list of tokens.
#[derive(PartialEq, Debug, Default, Drop)]
pub enum ParseError {
    #[default]
    LexerError,
    ReservedWord(String),
    DiagnosticSeverity,
    Attribute(&'static str, &'static str),
    VarTemplate(&'static str),
    OutOfMemory,
}

/// An error of a text: its kind, and where it is.
#[derive(PartialEq, Debug, Drop)]
pub struct Error {
    pub error: ErrorKind,
    pub span: Span,
}

impl std::error::Error for ErrorKind {}

impl std::error::Error for Error {}
