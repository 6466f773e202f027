//! The paths of the files of a folder.

ghost use Rattle.std.specs.Prelude.{◌≡◌, ◌∷◌, [], map, string_bytes, IfOk};
ghost use Rattle.wgsl_files.specs.Folders.{folder_of, is_hidden};
ghost use Rattle.wgsl_files.specs.Folders.{is_below, is_wgsl_below, is_listed_below};

use std::alloc::{AllocError, Global};

/// Returns a list of only this path.
pub fn single(alloc: Global, path: &str) -> Result<Vec<String>, AllocError>
    ensures { IfOk result (λ paths. map string_bytes paths.items ≡ path.now ∷ []) }
{
    let mut paths = Vec::new(alloc);
    paths.push(String::from_str(alloc, path)?)?;
    Ok(paths)
}

/// Returns the path of a folder without a `/` at its end.
pub fn folder_of(path: &str) -> &str
    ensures { result.now ≡ folder_of path.now }
{
    match path.strip_suffix('/') {
        Some(folder) => folder,
        None => path,
    }
}

/// Returns whether a path leads into a folder.
pub fn is_below(folder: &str, path: &str) -> bool
    ensures { result ≡ is_below folder.now path.now }
{
    match path.as_bytes().strip_prefix(folder.as_bytes()) {
        Some(names) => names.starts_with(b"/"),
        None => false,
    }
}

/// Returns whether this is the path of a WGSL file of a folder, in which no name begins with `.`.
pub fn is_wgsl_below(folder: &str, path: &str) -> bool
    ensures { result ≡ is_wgsl_below folder.now path.now }
{
    match path.as_bytes().strip_prefix(folder.as_bytes()) {
        Some(names) => {
            names.starts_with(b"/") && path.as_bytes().ends_with(b".wgsl") && !is_hidden(names)
        }
        None => false,
    }
}

/// Returns whether a path is one to list for a folder: that of a WGSL file, or one that ends with
/// `/`.
pub fn is_listed_below(folder: &str, path: &str) -> bool
    ensures { result ≡ is_listed_below folder.now path.now }
{
    is_wgsl_below(folder, path) || is_below(folder, path) && path.as_bytes().ends_with(b"/")
}

/// Whether a name begins with `.`.
fn is_hidden(names: &[u8]) -> bool
    ensures { result ≡ is_hidden names.now }
{
    for at in 0..names.len() {
        let (_, rest) = names.split_at(at);
        if rest.starts_with(b"/.") {
            return true;
        }
    }
    false
}
