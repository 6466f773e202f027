//! Files that are kept in memory.

ghost use Rattle.std.specs.Prelude.{◌≡◌, map, string_bytes, IfOk, IfErr, OnOk, OnErr};
ghost use Rattle.std.specs.BTreeMap.{keys, IsOrdered};
ghost use Rattle.std.specs.String.{string_cmp};
ghost use Rattle.std.specs.List.{filter, list_any};
ghost use Rattle.wgsl_files.specs.Files.{Same, Replaced};
ghost use Rattle.wgsl_files.specs.Folders.{is_below, is_wgsl_below};
ghost use Rattle.wgsl_files.specs.Memory.{files_of};
ghost use Rattle.wgsl_files.specs.Reading.{IsMissing};

use crate::folder::{folder_of, is_below, is_wgsl_below, single};
use crate::store::{Store, StoreError};
use std::alloc::{AllocError, Global};
use std::collections::BTreeMap;
use std::io;

/// Files by their paths.
#[derive(Drop)]
pub struct MemoryStore {
    pub files: BTreeMap<String, Vec<u8>>,
}

impl Store for MemoryStore {
    ghost files = { λ store. files_of store.files };

    fn list(&self, alloc: Global, path: &str) -> Result<Vec<String>, StoreError> {
        let folder = folder_of(path);
        if has_below(&self.files, folder) {
            Ok(wgsl_below(alloc, &self.files, folder)?)
        } else {
            Ok(single(alloc, path)?)
        }
    }

    /// Paths begin where the files are kept.
    fn absolute(&self, alloc: Global, path: &str) -> Result<String, AllocError> {
        String::from_str(alloc, path)
    }

    fn read(&self, alloc: Global, path: &str) -> Result<Vec<u8>, StoreError> {
        match self.files.get(path) {
            Some(bytes) => Ok(Vec::from_slice(alloc, bytes.as_slice())?),
            None => Err(StoreError::Failed(io::Error::from(io::ErrorKind::NotFound))),
        }
    }

    fn read_regular(&self, alloc: Global, path: &str) -> Result<Vec<u8>, StoreError> {
        self.read(alloc, path)
    }

    fn replace(&mut self, alloc: Global, path: &str, bytes: &[u8]) -> Result<(), StoreError>
        ensures ok { OnOk result (Replaced (files_of self.old.files) (files_of self.new.files)
            path.now bytes.now) }
        ensures missing { IfErr result (λ e. IsMissing (files_of self.old.files) path.now e) }
        ensures err { OnErr result (Same (files_of self.old.files) (files_of self.new.files)) }

        // It fails only if an allocation fails.
        ensures memory { IfErr result (λ e. e ≡ StoreError.OutOfMemory) }
    {
        self.write(alloc, path, bytes)
    }

    fn write(&mut self, alloc: Global, path: &str, bytes: &[u8]) -> Result<(), StoreError> {
        let kept = Vec::from_slice(alloc, bytes)?;
        self.files.insert(String::from_str(alloc, path)?, kept)?;
        Ok(())
    }
}

/// Whether there is a file below a folder.
fn has_below(files: &BTreeMap<String, Vec<u8>>, folder: &str) -> bool
    ensures { result ≡ list_any (is_below folder.now) (map string_bytes (keys files.now)) }
{
    files.keys().any(|path| is_below(folder, path.as_str()))
}

/// The paths of the WGSL files below a folder.
fn wgsl_below(
    alloc: Global,
    files: &BTreeMap<String, Vec<u8>>,
    folder: &str,
) -> Result<Vec<String>, AllocError>
    ensures found { IfOk result (λ paths. map string_bytes paths.items
        ≡ filter (is_wgsl_below folder.now) (map string_bytes (keys files.now))) }
    ensures ordered { IsOrdered string_cmp files.now }
{
    let mut paths = Vec::new(alloc);
    for path in files.keys() {
        if is_wgsl_below(folder, path.as_str()) {
            paths.push(path.clone()?)?;
        }
    }
    Ok(paths)
}
