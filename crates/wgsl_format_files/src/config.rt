//! What is chosen for a file where `.editorconfig` files say it.

ghost use Rattle.std.specs.Prelude.{◌≡◌, map, string_bytes, IfOk};
ghost use Rattle.wgsl_format_files.specs.Configs.{config_paths, paths_below, paths_from};
ghost use Rattle.wgsl_format_files.specs.Configs.{nothing_said, said_by, IsSaidAt};
ghost use Rattle.wgsl_format_files.specs.Configs.{AreChosenBy, AreChoicesFor};

use std::alloc::{AllocError, Global};
use wgsl_choices::Choices;
use wgsl_editorconfig::{Properties, properties};
use wgsl_files::{Store, StoreError};

/// Returns what is chosen for the file at a path: what these choices leave open is as the nearest
/// `.editorconfig` file says, in the folder of the file or one above it.
pub fn choices_for<S: Store>(
    alloc: Global,
    store: &S,
    choices: Choices,
    path: &str,
) -> Result<Choices, AllocError>
    ensures { IfOk result (AreChoicesFor (S.files store.now) choices path.now) }
{
    let found = store.absolute(alloc, path)?;
    let paths = config_paths(alloc, found.as_str())?;
    choices_by(alloc, store, choices, paths.as_slice())
}

/// These choices, and what `.editorconfig` files at these paths say where a part is left open. The
/// nearest one is the first, and after one that is a root no other is read.
fn choices_by<S: Store>(
    alloc: Global,
    store: &S,
    choices: Choices,
    paths: &[String],
) -> Result<Choices, AllocError>
    ensures { IfOk result
        (AreChosenBy (S.files store.now) choices (map string_bytes paths.now)) }
{
    let mut chosen = choices;
    for path in paths {
        let said = said_at(alloc, store, path.as_str())?;
        chosen = chosen.or(said.choices);
        if said.root {
            return Ok(chosen);
        }
    }
    Ok(chosen)
}

/// What the `.editorconfig` file at a path says: nothing, if it cannot be read.
fn said_at<S: Store>(alloc: Global, store: &S, path: &str) -> Result<Properties, AllocError>
    ensures { IfOk result (IsSaidAt (S.files store.now) path.now) }
{
    match store.read_regular(alloc, path) {
        Ok(bytes) => Ok(said_by(bytes.as_slice())),
        Err(StoreError::OutOfMemory) => Err(AllocError),
        Err(StoreError::Failed(_)) => Ok(nothing_said()),
    }
}

/// What an `.editorconfig` file with these bytes says: nothing, if they are not UTF-8.
fn said_by(bytes: &[u8]) -> Properties
    ensures { result ≡ said_by bytes.now }
{
    match std::str::from_utf8(bytes) {
        Ok(text) => properties(text),
        Err(_) => nothing_said(),
    }
}

/// No root, and no choice.
fn nothing_said() -> Properties
    ensures { result ≡ nothing_said }
{
    Properties {
        root: false,
        choices: Choices::none(),
    }
}

/// The paths of the `.editorconfig` files in the folder of a file and those above, the nearest
/// first.
fn config_paths(alloc: Global, path: &str) -> Result<Vec<String>, AllocError>
    ensures { IfOk result (λ paths. map string_bytes paths.items ≡ config_paths path.now) }
{
    match path.strip_prefix('/') {
        Some(names) => paths_below(alloc, "/", names),
        None => paths_below(alloc, "", path),
    }
}

/// The paths of those in a folder and the folders that lead from it to a file, the nearest to the
/// file first.
fn paths_below(alloc: Global, folder: &str, path: &str) -> Result<Vec<String>, AllocError>
    ensures { IfOk result (λ paths. map string_bytes paths.items
        ≡ paths_below folder.now path.now) }
{
    let names = path.split('/').collect::<Vec<&str>>(alloc)?;
    let mut paths = paths_from(alloc, folder, names.as_slice())?;
    paths.reverse();
    Ok(paths)
}

/// The paths of those in a folder and the folders that these names lead to, of which the last is
/// that of a file.
fn paths_from(alloc: Global, folder: &str, names: &[&str]) -> Result<Vec<String>, AllocError>
    ensures { IfOk result (λ paths. map string_bytes paths.items
        ≡ paths_from folder.now (map (λ name. name.now) names.now)) }
{
    let mut paths = Vec::new(alloc);
    let mut above = String::from_str(alloc, folder)?;
    for name in names {
        paths.push(format!(in alloc; "{above}.editorconfig")?)?;
        above = format!(in alloc; "{above}{name}/")?;
    }
    Ok(paths)
}
