//! The texts of errors.

ghost use Rattle.std.specs.Prelude.{◌≡◌, Some, map, string_bytes};
ghost use Rattle.std.specs.Fmt.{DisplaysOnOk};
ghost use Rattle.wgsl_model.specs.Program.{shown_fault};
ghost use Rattle.wgsl_error.specs.View.{fault_view};
ghost use Rattle.wgsl_error.specs.Printing.{print_expected, print_message, print_error_kind, print_error, shown_error};

use crate::{Error, ErrorKind};
use std::fmt;
use std::fmt::Write;
use wgsl_writer::write_joined;

/// An error that is shown without what was expected.
#[derive(Drop)]
pub struct WithoutExpected<'e> {
    error: &'e Error,
}

impl Error {
    /// Returns the error as it is shown without what was expected.
    pub fn without_expected(&self) -> WithoutExpected<'_>
        ensures { shown_error result ≡ self.now }
    {
        WithoutExpected { error: self }
    }
}

impl fmt::Display for ErrorKind {
    ghost output = { λ kind. Some (print_error_kind kind) };

    fn fmt<W: fmt::Write>(&self, f: &mut fmt::Formatter<W>) -> fmt::Result {
        match self {
            ErrorKind::UnexpectedToken { expected, .. } => {
                write_message(self, f)?;
                write_expected(expected, f)
            }
            ErrorKind::UnexpectedEof { expected } => {
                write_message(self, f)?;
                write_expected(expected, f)
            }
            _ => write_message(self, f),
        }
    }
}

impl fmt::Display for Error {
    ghost output = { λ e. Some (print_error e) };

    fn fmt<W: fmt::Write>(&self, f: &mut fmt::Formatter<W>) -> fmt::Result {
        write!(
            f,
            "chars {}..{}: {}",
            self.span.start, self.span.end, self.error
        )
    }
}

impl fmt::Display for WithoutExpected<'_> {
    ghost output = { λ shown. Some (shown_fault (fault_view (shown_error shown))) };

    fn fmt<W: fmt::Write>(&self, f: &mut fmt::Formatter<W>) -> fmt::Result {
        let span = self.error.span;
        write!(f, "chars {}..{}: ", span.start, span.end)?;
        write_message(&self.error.error, f)
    }
}

/// Writes the message of a kind, without what was expected.
pub(crate) fn write_message<W: fmt::Write>(
    kind: &ErrorKind,
    f: &mut fmt::Formatter<W>,
) -> fmt::Result
    ensures { DisplaysOnOk W.write_str_gives f.old result (Some (print_message kind.now)) f.new }
{
    match kind {
        ErrorKind::InvalidToken => write!(f, "invalid token"),
        ErrorKind::ReservedWord(word) => write!(f, "use of a reserved word `{word}`"),
        ErrorKind::UnexpectedToken { token, .. } => write!(f, "unexpected token `{token}`"),
        ErrorKind::UnexpectedEof { .. } => write!(f, "unexpected end of file"),
        ErrorKind::ExtraToken(token) => {
            write!(f, "extra token `{token}` at the end of the file")
        }
        ErrorKind::DiagnosticSeverity => write!(f, "invalid diagnostic severity"),
        ErrorKind::Attribute(name, problem) => write!(f, "invalid `{name}` attribute, {problem}"),
        ErrorKind::VarTemplate(problem) => {
            write!(f, "invalid `var` template arguments, {problem}")
        }
        ErrorKind::OutOfMemory => write!(f, "out of memory"),
    }
}

/// Writes what was expected, with commas between.
fn write_expected<W: fmt::Write>(expected: &[String], f: &mut fmt::Formatter<W>) -> fmt::Result
    ensures { let text = print_expected (map string_bytes expected.now) in
        DisplaysOnOk W.write_str_gives f.old result (Some text) f.new }
{
    f.write_str(", expected `")?;
    write_joined(expected, ", ", f)?;
    f.write_str("`")
}
