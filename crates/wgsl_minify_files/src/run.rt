//! One run: a module is read, minified and written.

ghost use Rattle.std.specs.Prelude.{IfOk, IfErr, string_bytes};
ghost use Rattle.std.specs.Option.{option_copied};
ghost use Rattle.wgsl_program.specs.World.{world};
ghost use Rattle.wgsl_tree_renamed.specs.NewNames.{pairs};
ghost use Rattle.wgsl_minify_files.specs.Runs.{IsSource, IsUnread};
ghost use Rattle.wgsl_minify_files.specs.Runs.{IsPrepared, Stops, IsRun};
ghost use Rattle.wgsl_minify_files.specs.View.{options_view};

use crate::failure::Failure;
use crate::minified::{minify_source, name_of};
use crate::options::Options;
use crate::written::deliver;
use std::alloc::Global;
use std::io::{Read, Write};
use wgsl_files::Store;
use wgsl_format::{ReadError, read_all};
use wgsl_minify::Minified;

/// Minifies a module as is asked for: reads it, writes the new names, and last the minified text.
/// Returns the status.
pub fn run<S: Store, R: Read, W: Write, E: Write>(
    alloc: Global,
    options: &Options<'_>,
    store: &mut S,
    input: &mut R,
    output: &mut W,
    errors: &mut E,
) -> u8
    ensures { IsRun (options_view options.now)
        (world (S.files store.old) (R.remaining input.old)
        (W.contents output.old) (E.contents errors.old))
        (world (S.files store.new) (R.remaining input.new)
        (W.contents output.new) (E.contents errors.new)) result }
{
    match prepare(alloc, options, store, input) {
        Ok(minified) => deliver(alloc, options, &minified, store, output, errors),
        Err(failure) => failure.tell(errors),
    }
}

/// Does all but write, and returns what is written.
fn prepare<S: Store, R: Read>(
    alloc: Global,
    options: &Options<'_>,
    store: &S,
    input: &mut R,
) -> Result<Minified, Failure>
    ensures prepared { IfOk result (λ minified. IsPrepared (options_view options.now)
        (S.files store.now) (R.remaining input.old) (R.remaining input.new)
        (pairs minified.names) (string_bytes minified.text)) }
    ensures stops { IfErr result (Stops (options_view options.now)
        (S.files store.now) (R.remaining input.old) (R.remaining input.new)) }
{
    let source = read_source(alloc, options.input, store, input)?;
    minify_source(alloc, options, source.as_slice())
}

/// Reads the file at a path, or with none all that a reader gives.
fn read_source<S: Store, R: Read>(
    alloc: Global,
    path: Option<&str>,
    store: &S,
    input: &mut R,
) -> Result<Vec<u8>, Failure>
    ensures read { IfOk result (λ source. IsSource (option_copied path.entry) (S.files store.now)
        (R.remaining input.old) (R.remaining input.new) source.items) }
    ensures unread { IfErr result
        (IsUnread (option_copied path.entry) (S.files store.now)) }
{
    match path {
        Some(path) => match store.read(alloc, path) {
            Ok(source) => Ok(source),
            Err(error) => Err(Failure::of(alloc, path, error)),
        },
        None => match read_all(alloc, input) {
            Ok(source) => Ok(source),
            Err(ReadError::OutOfMemory) => Err(Failure::OutOfMemory),
            Err(ReadError::Failed) => {
                Err(Failure::for_reason(alloc, name_of(None), "it could not be read"))
            }
        },
    }
}
