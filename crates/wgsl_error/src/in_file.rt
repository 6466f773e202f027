//! Errors and messages in named files, which print as compilers print them.

ghost use Rattle.std.specs.Prelude.{◌≡◌, Some};
ghost use Rattle.wgsl_error.specs.Printing.{print_error_in_file, print_message_in_file};

use crate::Error;
use crate::display::write_message;
use crate::snippet::{line_and_column, write_marked_line};
use std::fmt;
use std::fmt::Write;
use wgsl_span::Span;

/// An error in a file with this name and this source. It prints `NAME:LINE:COLUMN: error: MESSAGE`,
/// the line in which its span starts, and a line of carets below the span. The message is without
/// what was expected, so that it is short. Lines end at an LF alone; columns are counted in
/// characters, both from 1.
#[derive(Drop)]
pub struct ErrorInFile<'e> {
    pub error: &'e Error,
    pub name: &'e str,
    pub source: &'e str,
}

impl Error {
    /// Returns the error in the file with this name and this source. The span's places are byte
    /// offsets into the source; every span is accepted, as by `with_source`.
    pub fn in_file<'e>(&'e self, name: &'e str, source: &'e str) -> ErrorInFile<'e>
        ensures error { result.error.now ≡ self.now }
        ensures name { result.name.now ≡ name.now }
        ensures source { result.source.now ≡ source.now }
    {
        ErrorInFile {
            error: self,
            name,
            source,
        }
    }
}

impl fmt::Display for ErrorInFile<'_> {
    ghost output = { λ e. Some (print_error_in_file e) };

    fn fmt<W: fmt::Write>(&self, f: &mut fmt::Formatter<W>) -> fmt::Result {
        let (line, column) = line_and_column(self.source, self.error.span);
        write!(f, "{}:{line}:{column}: error: ", self.name)?;
        write_message(&self.error.error, f)?;
        f.write_str("\n")?;
        write_marked_line(self.source, self.error.span, f)
    }
}

/// A message at a span of a file with this name and this source, which prints as an error there.
#[derive(Drop)]
pub struct MessageInFile<'e> {
    pub message: &'e str,
    pub span: Span,
    pub name: &'e str,
    pub source: &'e str,
}

impl fmt::Display for MessageInFile<'_> {
    ghost output = { λ it. Some (print_message_in_file it) };

    fn fmt<W: fmt::Write>(&self, f: &mut fmt::Formatter<W>) -> fmt::Result {
        let (line, column) = line_and_column(self.source, self.span);
        let (name, message) = (self.name, self.message);
        writeln!(f, "{name}:{line}:{column}: error: {message}")?;
        write_marked_line(self.source, self.span, f)
    }
}
