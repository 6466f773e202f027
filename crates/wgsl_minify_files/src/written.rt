//! What is written: the new names and the minified text.

ghost use Rattle.std.specs.Prelude.{◌≡◌, ℕ, List, Option, IfOk, option_map, string_bytes};
ghost use Rattle.wgsl_program.specs.World.{world};
ghost use Rattle.wgsl_tree_renamed.specs.NewNames.{pairs};
ghost use Rattle.wgsl_minify_files.specs.Options.{to_file};
ghost use Rattle.wgsl_minify_files.specs.Runs.{Delivers, Saves, Writes, map_file};
ghost use Rattle.wgsl_minify_files.specs.View.{options_view, target_view};

use crate::failure::Failure;
use crate::options::{Options, Target};
use std::alloc::{AllocError, Global};
use std::io::Write;
use wgsl_files::{Status, Store};
use wgsl_minify::{Minified, NewNames};
use wgsl_name_map::map_text;
use wgsl_program::say;

/// Writes the new names of a minified module, if they are asked for, and then its text. Without the
/// names the text is not written. Returns the status.
pub fn deliver<S: Store, W: Write, E: Write>(
    alloc: Global,
    options: &Options<'_>,
    minified: &Minified,
    store: &mut S,
    output: &mut W,
    errors: &mut E,
) -> u8
    ensures { (left rest : Option (List ℕ)) → Delivers (options_view options.now)
        (pairs minified.now.names) (string_bytes minified.now.text)
        (world (S.files store.old) left (W.contents output.old) (E.contents errors.old))
        (world (S.files store.new) rest (W.contents output.new) (E.contents errors.new)) result }
{
    let status = save(alloc, options.map, &minified.names, store, output, errors);
    if status != 0 {
        return status;
    }
    write(
        alloc,
        options.output,
        minified.text.as_str(),
        store,
        output,
        errors,
    )
}

/// Writes new names to a place, if there is one, and returns the status.
fn save<S: Store, W: Write, E: Write>(
    alloc: Global,
    target: Option<Target<'_>>,
    names: &NewNames,
    store: &mut S,
    output: &mut W,
    errors: &mut E,
) -> u8
    ensures { (left rest : Option (List ℕ)) → Saves (option_map target_view target.entry)
        (map_file (pairs names.now))
        (world (S.files store.old) left (W.contents output.old) (E.contents errors.old))
        (world (S.files store.new) rest (W.contents output.new) (E.contents errors.new)) result }
{
    let Some(target) = target else {
        return Status::Success.code();
    };
    match map_file(alloc, names) {
        Ok(text) => write(alloc, target, text.as_str(), store, output, errors),
        Err(AllocError) => Failure::OutOfMemory.tell(errors),
    }
}

/// The file of the new names.
fn map_file(alloc: Global, names: &NewNames) -> Result<String, AllocError>
    ensures { IfOk result (λ text. string_bytes text ≡ map_file (pairs names.now)) }
{
    let mut text = map_text(alloc, names)?;
    text.push('\n')?;
    Ok(text)
}

/// Writes a text to a place, and returns the status.
fn write<S: Store, W: Write, E: Write>(
    alloc: Global,
    target: Target<'_>,
    text: &str,
    store: &mut S,
    output: &mut W,
    errors: &mut E,
) -> u8
    ensures { (left rest : Option (List ℕ)) → Writes (target_view target.entry) text.now
        (world (S.files store.old) left (W.contents output.old) (E.contents errors.old))
        (world (S.files store.new) rest (W.contents output.new) (E.contents errors.new)) result }
{
    match target {
        Target::Output => say(output, text, Status::Success),
        Target::File(path) => write_file(alloc, path, text, store, errors),
    }
}

/// Puts a text into the file at a path, and returns the status.
fn write_file<S: Store, E: Write>(
    alloc: Global,
    path: &str,
    text: &str,
    store: &mut S,
    errors: &mut E,
) -> u8
    ensures { (left rest output : Option (List ℕ)) → Writes (to_file path.now) text.now
        (world (S.files store.old) left output (E.contents errors.old))
        (world (S.files store.new) rest output (E.contents errors.new)) result }
{
    match store.write(alloc, path, text.as_bytes()) {
        Ok(()) => Status::Success.code(),
        Err(error) => Failure::of(alloc, path, error).tell(errors),
    }
}
