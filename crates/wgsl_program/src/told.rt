//! What is told of arguments that ask for no run.

ghost use Rattle.std.specs.Prelude.{◌≡◌, ℕ, List, Option};
ghost use Rattle.clap.specs.Words.{kind_of};
ghost use Rattle.wgsl_files.specs.Files.{Files};
ghost use Rattle.wgsl_program.specs.Start.{IsTold, is_display, is_memory};
ghost use Rattle.wgsl_program.specs.World.{world};

use crate::text::say;
use clap::Error;
use clap::error::ErrorKind;
use std::alloc::Global;
use std::io::Write;
use wgsl_files::Status;

/// Writes the text of an error of arguments: what `--help` and `--version` print is for the output.
/// If an allocation failed, the errors have the message for that.
pub fn tell<W: Write, E: Write>(
    alloc: Global,
    error: &Error,
    memory: &str,
    output: &mut W,
    errors: &mut E,
) -> u8
    ensures { (files : Files) (left : Option (List ℕ)) → IsTold memory.now (kind_of error.now)
        (world files left (W.contents output.old) (E.contents errors.old))
        (world files left (W.contents output.new) (E.contents errors.new)) result }
{
    if is_memory(error.kind()) {
        return say(errors, memory, Status::OutOfMemory);
    }
    let Ok(text) = error.to_string(alloc) else {
        return say(errors, memory, Status::OutOfMemory);
    };
    if is_display(error.kind()) {
        say(output, text.as_str(), Status::Success)
    } else {
        say(errors, text.as_str(), Status::Usage)
    }
}

/// Whether an allocation failed.
fn is_memory(kind: ErrorKind) -> bool
    ensures { result ≡ is_memory kind }
{
    matches!(kind, ErrorKind::OutOfMemory)
}

/// Whether the text of an error is what `--help` or `--version` prints.
fn is_display(kind: ErrorKind) -> bool
    ensures { result ≡ is_display kind }
{
    matches!(kind, ErrorKind::DisplayHelp | ErrorKind::DisplayVersion)
}
