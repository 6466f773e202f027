//! What comes of a file.

ghost use Rattle.std.specs.Prelude.{◌≡◌};
ghost use Rattle.wgsl_format_files.specs.Events.{store_mode_of, IsFailure};
ghost use Rattle.wgsl_format_files.specs.Files.{ComesOfFile};

use crate::changed::changed;
use crate::event::Event;
use std::alloc::Global;
use std::io;
use wgsl_files::{FileError, Format, Rewritten, Store, rewrite};
use wgsl_format_options::Mode;

/// Formats the file at a path, and returns what comes of it. It is only written if files are
/// written and it changes, and it fails only where there is no file.
pub fn format_file<S: Store, F: Format>(
    alloc: Global,
    store: &mut S,
    format: &F,
    path: &str,
    mode: Mode,
) -> Event
    ensures { ComesOfFile (F.becomes format.now) (F.refuses format.now) mode
        (S.files store.old) (S.files store.new) path.now result }
{
    match rewrite(alloc, store, format, path, store_mode(mode)) {
        Ok(Rewritten::Unchanged) => Event::Unchanged,
        Ok(Rewritten::Changed(before, after)) => {
            changed(alloc, path, mode, before.as_slice(), after.as_slice())
        }
        Err(FileError::OutOfMemory) => Event::OutOfMemory,
        Err(FileError::Failed(error)) => failed(alloc, error),
        Err(FileError::Refused(refusal)) => Event::Refused(refusal),
    }
}

/// What is done with files.
fn store_mode(mode: Mode) -> wgsl_files::Mode
    ensures { result ≡ store_mode_of mode }
{
    match mode {
        Mode::Write => wgsl_files::Mode::InPlace,
        Mode::Check | Mode::Diff => wgsl_files::Mode::Check,
    }
}

/// Returns what comes of a file that could not be read or written.
pub fn failed(alloc: Global, error: io::Error) -> Event
    ensures { IsFailure result }
{
    match error.to_string(alloc) {
        Ok(reason) => Event::Failed(reason),
        Err(_) => Event::OutOfMemory,
    }
}
