//! What is formatted for the paths that are named.

ghost use Rattle.std.specs.Prelude.{◌≡◌, ◌++◌, [], ◌∷◌, map, string_bytes, IfOk, OnOk};
ghost use Rattle.wgsl_format_options.specs.Options as plain;
ghost use Rattle.wgsl_format_options.specs.View.{source_view};
ghost use Rattle.wgsl_format_files.specs.Inputs.{input_view, name_in};
ghost use Rattle.wgsl_format_files.specs.Inputs.{AreInputsOf, IsInputOf, AreFilesOf};

use std::alloc::{AllocError, Global};
use wgsl_files::{Store, StoreError};
use wgsl_format_options::Source;

/// A place where a text is read.
#[derive(Debug, Drop)]
pub enum Input {
    StandardInput,
    File(String),
}

impl Input {
    /// Returns its name in messages, where the standard input has this one.
    pub fn name<'n>(&'n self, stdin_name: &'n str) -> &'n str
        ensures { result.now ≡ name_in stdin_name.now (input_view self.now) }
    {
        match self {
            Input::StandardInput => stdin_name,
            Input::File(path) => path.as_str(),
        }
    }
}

/// Returns the inputs for these sources, in order: of a folder its files.
pub fn inputs_of<S: Store>(
    alloc: Global,
    store: &S,
    sources: &[Source<'_>],
) -> Result<Vec<Input>, AllocError>
    ensures { IfOk result (λ inputs. AreInputsOf (S.files store.now)
        (map source_view sources.now) (map input_view inputs.items)) }
{
    let mut inputs = Vec::new(alloc);
    for source in sources {
        push_source(alloc, store, source, &mut inputs)?;
    }
    Ok(inputs)
}

/// Adds the inputs for a source.
fn push_source<S: Store>(
    alloc: Global,
    store: &S,
    source: &Source<'_>,
    inputs: &mut Vec<Input>,
) -> Result<(), AllocError>
    ensures { OnOk result (IsInputOf (S.files store.now) (source_view source.now)
        (map input_view inputs.old.items) (map input_view inputs.new.items)) }
{
    match source {
        Source::StandardInput => {
            inputs.push(Input::StandardInput)?;
            Ok(())
        }
        Source::Path(path) => push_files(alloc, store, path, inputs),
    }
}

/// Adds the files to format for a path. Where a store does not list them, that is the path itself,
/// so that reading it gives the error.
fn push_files<S: Store>(
    alloc: Global,
    store: &S,
    path: &str,
    inputs: &mut Vec<Input>,
) -> Result<(), AllocError>
    ensures { OnOk result (AreFilesOf (S.files store.now) path.now
        (map input_view inputs.old.items) (map input_view inputs.new.items)) }
{
    match store.list(alloc, path) {
        Ok(paths) => push_paths(paths, inputs),
        Err(StoreError::OutOfMemory) => Err(AllocError),
        Err(StoreError::Failed(_)) => push_path(String::from_str(alloc, path)?, inputs),
    }
}

/// Adds the file at a path.
fn push_path(path: String, inputs: &mut Vec<Input>) -> Result<(), AllocError>
    ensures { OnOk result (map input_view inputs.new.items
        ≡ map input_view inputs.old.items ++ plain.path (string_bytes path) ∷ []) }
{
    inputs.push(Input::File(path))?;
    Ok(())
}

/// Adds a file for each path.
fn push_paths(paths: Vec<String>, inputs: &mut Vec<Input>) -> Result<(), AllocError>
    ensures { OnOk result (map input_view inputs.new.items
        ≡ map input_view inputs.old.items ++ map plain.path (map string_bytes paths.items)) }
{
    for path in paths {
        inputs.push(Input::File(path))?;
    }
    Ok(())
}
