//! What comes of the standard input.

ghost use Rattle.wgsl_format_files.specs.Events.{IsFailure};
ghost use Rattle.wgsl_format_files.specs.Files.{ComesOfInput, ComesOfText};

use crate::changed::changed;
use crate::event::Event;
use std::alloc::Global;
use std::io::Read;
use wgsl_files::{Format, FormatError};
use wgsl_format::{ReadError, read_all};
use wgsl_format_options::Mode;

/// Formats all that a reader gives, and returns what comes of it, as of a file of this name. Where
/// files are written the formatted text is for the output.
pub fn format_input<F: Format, R: Read>(
    alloc: Global,
    format: &F,
    name: &str,
    mode: Mode,
    input: &mut R,
) -> Event
    ensures { ComesOfInput (F.becomes format.now) (F.refuses format.now) mode
        (R.remaining input.old) name.now result }
{
    match read_all(alloc, input) {
        Ok(text) => format_text(alloc, format, name, mode, text.as_slice()),
        Err(ReadError::OutOfMemory) => Event::OutOfMemory,
        Err(ReadError::Failed) => unread(alloc),
    }
}

/// What comes of the standard input with this text.
fn format_text<F: Format>(alloc: Global, format: &F, name: &str, mode: Mode, text: &[u8]) -> Event
    ensures { ComesOfText (F.becomes format.now) (F.refuses format.now) mode
        name.now text.now result }
{
    match format.format(alloc, text) {
        Ok(formatted) if mode == Mode::Write => Event::Printed(formatted),
        Ok(formatted) if formatted.as_slice() == text => Event::Unchanged,
        Ok(formatted) => changed(alloc, name, mode, text, formatted.as_slice()),
        Err(FormatError::OutOfMemory) => Event::OutOfMemory,
        Err(FormatError::Refused(refusal)) => Event::Refused(refusal),
    }
}

/// What comes of a reader that fails.
fn unread(alloc: Global) -> Event
    ensures { IsFailure result }
{
    match String::from_str(alloc, "it could not be read") {
        Ok(reason) => Event::Failed(reason),
        Err(_) => Event::OutOfMemory,
    }
}
