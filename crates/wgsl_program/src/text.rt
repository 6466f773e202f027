//! Texts that are written.

ghost use Rattle.wgsl_files.specs.Statuses.{code_of};
ghost use Rattle.wgsl_program.specs.Written.{Wrote};
ghost use Rattle.wgsl_program.specs.World.{Says};

use std::io::Write;
use wgsl_files::Status;
use wgsl_format::send;

/// Writes a text, and returns whether all of it was written.
pub fn put<W: Write>(writer: &mut W, text: &[u8]) -> bool
    ensures { Wrote result text.now (W.contents writer.old) (W.contents writer.new) }
{
    if text.is_empty() {
        return true;
    }
    match send(writer, text) {
        Ok(()) => true,
        Err(_) => false,
    }
}

/// Writes a text, and returns the number of the status, or that of `Failed` if not all of the text
/// was written.
pub fn say<W: Write>(writer: &mut W, text: &str, status: Status) -> u8
    ensures { Says text.now (code_of status)
        (W.contents writer.old) (W.contents writer.new) result }
{
    if put(writer, text.as_bytes()) {
        status.code()
    } else {
        Status::Failed.code()
    }
}
