//! What is reported of a text that changes.

ghost use Rattle.std.specs.Prelude.{◌≡◌, IfOk};
ghost use Rattle.wgsl_format_files.specs.Events.{IsDiff, IsToldOfChange, line_of};

use crate::event::Event;
use std::alloc::{AllocError, Global};
use wgsl_diff::{hunks, lines_of, push_diff, script};
use wgsl_format_options::Mode;

/// Returns what comes of a file of this name whose text changes from one to another. If files are
/// written, it was.
pub fn changed(alloc: Global, name: &str, mode: Mode, before: &[u8], after: &[u8]) -> Event
    ensures { IsToldOfChange mode name.now before.now after.now result }
{
    match mode {
        Mode::Write => Event::Formatted,
        Mode::Check => match line_of(alloc, name) {
            Ok(line) => Event::WouldChange(line),
            Err(_) => Event::OutOfMemory,
        },
        Mode::Diff => match diff_of(alloc, name, before, after) {
            Ok(diff) => Event::WouldChange(diff),
            Err(_) => Event::OutOfMemory,
        },
    }
}

/// The name and an LF.
fn line_of(alloc: Global, name: &str) -> Result<Vec<u8>, AllocError>
    ensures { IfOk result (λ line. line.items ≡ line_of name.now) }
{
    Ok(format!(in alloc; "{name}\n")?.into_bytes())
}

/// The diff of a file of this name.
fn diff_of(alloc: Global, name: &str, before: &[u8], after: &[u8]) -> Result<Vec<u8>, AllocError>
    ensures { IfOk result (λ text. IsDiff name.now before.now after.now text.items) }
{
    let before = lines_of(alloc, before)?;
    let after = lines_of(alloc, after)?;
    let lines = script(alloc, &before, &after)?;
    let mut text = Vec::new(alloc);
    push_diff(alloc, &mut text, name, &hunks(alloc, &lines)?)?;
    Ok(text)
}
