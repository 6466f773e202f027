//! The files below a folder of the system.

ghost use Rattle.std.specs.Prelude.{◌≡◌, true, map, string_bytes, IfOk};
ghost use Rattle.std.specs.Ordering.{nat_cmp};
ghost use Rattle.std.specs.Cmp.Lexicographic.{slice_cmp};
ghost use Rattle.std.specs.List.{All};
ghost use Rattle.std.specs.List.Sorted.{IsStrictlySortedBy};
ghost use Rattle.wgsl_files.specs.Folders.{is_listed_below};

use crate::folder::is_listed_below;
use crate::store::StoreError;
use std::alloc::{AllocError, Global};
use std::fs::{DirEntry, ReadDir};
use std::io;
use std::rt::Files;

/// Lists the WGSL files below a folder, sorted. A folder that cannot be read is listed too.
pub fn below<R: Files + AllocGlobal + Clone + Drop>(
    rt: &R,
    alloc: Global,
    root: &str,
) -> Result<Vec<String>, StoreError>
    ensures each { IfOk result (λ paths.
        All (λ path. is_listed_below root.now (string_bytes path) ≡ true) paths.items) }
    ensures ordered { IfOk result (λ paths.
        IsStrictlySortedBy (slice_cmp nat_cmp) (map string_bytes paths.items)) }
{
    let mut paths = walk(rt, alloc, root)?;
    paths.sort_unstable();
    paths.dedup();
    Ok(paths)
}

/// The WGSL files below a folder, in any order. A folder that cannot be read is listed too.
fn walk<R: Files + AllocGlobal + Clone + Drop>(
    rt: &R,
    alloc: Global,
    root: &str,
) -> Result<Vec<String>, StoreError>
    ensures { IfOk result (λ paths.
        All (λ path. is_listed_below root.now (string_bytes path) ≡ true) paths.items) }
{
    let mut found = Found::nothing(alloc, root);
    found.folders.push(String::from_str(alloc, root)?)?;
    found.read_all(rt, alloc)?;
    Ok(found.listed)
}

/// What was found below a folder so far.
#[derive(Drop)]
struct Found<'a> {
    root: &'a str,
    listed: Vec<String>,
    /// Folders whose entries were not read yet.
    folders: Vec<String>,
    ghost each: { All (λ path. is_listed_below root.now (string_bytes path) ≡ true) listed.items },
}

impl<'a> Found<'a> {
    /// Nothing below this folder.
    fn nothing(alloc: Global, root: &'a str) -> Self
        ensures { result.root ≡ root.entry }
    {
        Found {
            root,
            listed: Vec::new(alloc),
            folders: Vec::new(alloc),
        }
    }

    /// Finds what is in the folders that were found, and so on.
    fn read_all<R: Files + AllocGlobal + Clone + Drop>(
        &mut self,
        rt: &R,
        alloc: Global,
    ) -> Result<(), StoreError>
        ensures { self.new.root ≡ self.old.root }
    {
        // The bound is for the proof: the loop ends when no folder is left.
        for _ in 0..u64::MAX {
            let Some(folder) = self.folders.pop() else {
                break;
            };
            self.read(rt, alloc, folder.as_str())?;
        }
        Ok(())
    }

    /// Finds what is in a folder.
    fn read<R: Files + AllocGlobal + Clone + Drop>(
        &mut self,
        rt: &R,
        alloc: Global,
        folder: &str,
    ) -> Result<(), StoreError>
        ensures { self.new.root ≡ self.old.root }
    {
        let path = format!(in alloc; "{folder}/")?;
        match std::fs::read_dir(rt, path.as_str()) {
            Ok(entries) => self.find(rt, alloc, folder, entries),
            Err(error) if error.kind() == io::ErrorKind::OutOfMemory => Err(error.into()),
            Err(_) => Ok(self.list(path)?),
        }
    }

    /// Finds the entries of a folder.
    fn find<R: Files + AllocGlobal + Clone + Drop>(
        &mut self,
        rt: &R,
        alloc: Global,
        folder: &str,
        entries: ReadDir<R, Global>,
    ) -> Result<(), StoreError>
        ensures { self.new.root ≡ self.old.root }
    {
        for entry in entries {
            let entry = entry?;
            let name = entry.file_name();
            let path = format!(in alloc; "{folder}/{name}")?;
            if is_folder(&entry) {
                if !name.starts_with('.') {
                    self.folders.push(path)?;
                }
            } else if leads_to_file(rt, path.as_str()) {
                self.list(path)?;
            }
        }
        Ok(())
    }

    /// Lists a path, if it is one to list for the folder.
    fn list(&mut self, path: String) -> Result<(), AllocError>
        ensures { self.new.root ≡ self.old.root }
    {
        if is_listed_below(self.root, path.as_str()) {
            self.listed.push(path)?;
        }
        Ok(())
    }
}

/// Whether an entry is a folder, and no link to one.
fn is_folder<R: Files>(entry: &DirEntry<R, Global>) -> bool {
    match entry.file_type() {
        Ok(kind) => kind.is_dir(),
        Err(_) => false,
    }
}

/// Whether a path leads to a regular file, through links too. One of which that is not known is
/// taken for a file, since reading it gives the error.
fn leads_to_file<R: Files>(rt: &R, path: &str) -> bool {
    match std::fs::metadata(rt, path) {
        Ok(metadata) => metadata.is_file(),
        Err(_) => true,
    }
}
