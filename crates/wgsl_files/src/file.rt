//! One file rewritten where it is.

ghost use Rattle.std.specs.Prelude.{IfOk, IfErr, OnErr};
ghost use Rattle.wgsl_files.specs.Files.{Same};
ghost use Rattle.wgsl_files.specs.Rewriting.{IsRewritten, IsFileError};

use crate::error::FileError;
use crate::format::{Format, FormatError};
use crate::store::Store;
use std::alloc::Global;

/// The choice whether a text that changes is written.
#[derive(Clone, Copy, Debug, PartialEq, Eq)]
pub enum Mode {
    /// It is written.
    InPlace,
    /// Nothing is written.
    Check,
}

/// The outcome of formatting a file.
#[derive(Debug, Drop)]
pub enum Rewritten {
    /// Its text becomes itself.
    Unchanged,
    /// What it held, and what that becomes.
    Changed(Vec<u8>, Vec<u8>),
}

/// Formats a regular file. It is only written if that changes it, and an `Err` changes nothing. It
/// fails only where there is no file.
pub fn rewrite<S: Store, F: Format>(
    alloc: Global,
    store: &mut S,
    format: &F,
    path: &str,
    mode: Mode,
) -> Result<Rewritten, FileError>
    ensures ok { IfOk result (λ rewritten. IsRewritten (F.becomes format.now) mode
        (S.files store.old) (S.files store.new) path.now rewritten) }
    ensures error { IfErr result (λ e.
        IsFileError (F.refuses format.now) (S.files store.old) path.now e) }
    ensures err { OnErr result (Same (S.files store.old) (S.files store.new)) }
{
    let before = store.read_regular(alloc, path)?;
    let after = match format.format(alloc, before.as_slice()) {
        Ok(after) => after,
        Err(FormatError::OutOfMemory) => return Err(FileError::OutOfMemory),
        Err(FormatError::Refused(refusal)) => return Err(FileError::Refused(refusal)),
    };
    if before == after {
        return Ok(Rewritten::Unchanged);
    }
    if mode == Mode::InPlace {
        store.replace(alloc, path, after.as_slice())?;
    }
    Ok(Rewritten::Changed(before, after))
}
