//! The files of the system.

ghost use Rattle.wgsl_files.specs.Files.{unknown};

use crate::folder::{folder_of, single};
use crate::store::{Store, StoreError};
use crate::walk::below;
use std::alloc::{AllocError, Global};
use std::fs::{File, Metadata, OpenFile, OpenOptions};
use std::io;
use std::io::{ErrorKind, Read, Write};
use std::os::unix::fs::{MetadataExt, chown};
use std::path::Path;
use std::rt::Files;

/// The files of the system that this runtime reaches. Contracts say nothing of what it holds.
///
/// A folder's links to files are listed, and those to folders are not followed. It is an error that
/// a name in a folder is not UTF-8.
#[derive(Drop)]
pub struct HostStore<'a, R> {
    pub rt: &'a R,
}

impl<'a, R: Files + AllocGlobal + Clone + Drop> Store for HostStore<'a, R> {
    ghost files = { λ _. unknown };

    fn list(&self, alloc: Global, path: &str) -> Result<Vec<String>, StoreError> {
        match std::fs::metadata(self.rt, path) {
            Ok(metadata) if metadata.is_dir() => below(self.rt, alloc, folder_of(path)),
            _ => Ok(single(alloc, path)?),
        }
    }

    /// The links of its folders are followed, up to the last folder that exists.
    fn absolute(&self, alloc: Global, path: &str) -> Result<String, AllocError> {
        let path = Path::new(or_here(path));
        for folder in path.ancestors().skip(1) {
            let Ok(rest) = path.strip_prefix(folder) else {
                break;
            };
            match self.rt.canonicalize(alloc, or_here(folder.as_str())) {
                Ok(found) => return Ok(found.join(alloc, rest)?.into_string()),
                Err(error) if error.kind() == ErrorKind::OutOfMemory => return Err(AllocError),
                Err(_) => {}
            }
        }
        String::from_str(alloc, path.as_str())
    }

    fn read(&self, alloc: Global, path: &str) -> Result<Vec<u8>, StoreError> {
        let mut file = File::open(self.rt, path)?;
        let mut bytes = Vec::new(alloc);
        file.read_to_end(&mut bytes)?;
        Ok(bytes)
    }

    /// What is there is looked at before it is opened: to open a pipe waits for a writer. A folder
    /// has an error of its own.
    fn read_regular(&self, alloc: Global, path: &str) -> Result<Vec<u8>, StoreError> {
        let metadata = std::fs::metadata(self.rt, path)?;
        if !metadata.is_file() && !metadata.is_dir() {
            return Err(not_regular().into());
        }
        self.read(alloc, path)
    }

    fn replace(&mut self, alloc: Global, path: &str, bytes: &[u8]) -> Result<(), StoreError> {
        Ok(replace_file(self.rt, alloc, path, bytes)?)
    }

    /// What is there has to be a regular file or a link to one: a device is refused. A link that
    /// leads to no file becomes the new one.
    fn write(&mut self, alloc: Global, path: &str, bytes: &[u8]) -> Result<(), StoreError> {
        match std::fs::metadata(self.rt, path) {
            Err(error) if error.kind() == ErrorKind::NotFound => {
                Ok(create_file(self.rt, alloc, path, bytes)?)
            }
            _ => self.replace(alloc, path, bytes),
        }
    }
}

/// A path, which is `.` in place of an empty one.
fn or_here(path: &str) -> &str {
    if path.is_empty() { "." } else { path }
}

/// How many names are tried for a new file.
const NAMES: u32 = 100;

/// Renames a new file with these bytes over the one that a path leads to by its links.
fn replace_file<R: Files>(rt: &R, alloc: Global, path: &str, bytes: &[u8]) -> io::Result<()> {
    let target = rt.canonicalize(alloc, path)?;
    let old = writable(rt, target.as_str())?;
    let (name, file) = create_beside(rt, alloc, target.as_str())?;
    let filled = fill(rt, file, name.as_str(), Some(&old), bytes);
    rename_filled(rt, filled, name.as_str(), target.as_str())
}

/// Makes a file with these bytes at a path where there is none.
fn create_file<R: Files>(rt: &R, alloc: Global, path: &str, bytes: &[u8]) -> io::Result<()> {
    let (name, file) = create_beside(rt, alloc, path)?;
    let filled = fill(rt, file, name.as_str(), None, bytes);
    rename_filled(rt, filled, name.as_str(), path)
}

/// Renames a new file to a path if it was filled, and removes it if that fails.
fn rename_filled<R: Files>(
    rt: &R,
    filled: io::Result<()>,
    name: &str,
    path: &str,
) -> io::Result<()> {
    let renamed = match filled {
        Ok(()) => std::fs::rename(rt, name, path),
        Err(error) => Err(error),
    };
    if renamed.is_err() {
        let _ = std::fs::remove_file(rt, name);
    }
    renamed
}

/// The error of a path that leads to no regular file.
fn not_regular() -> io::Error {
    io::Error::new(ErrorKind::InvalidInput, "not a regular file")
}

/// What is known of a file, which has to be a regular one that may be written.
fn writable<R: Files>(rt: &R, path: &str) -> io::Result<Metadata> {
    let metadata = std::fs::metadata(rt, path)?;
    if !metadata.is_file() {
        return Err(not_regular());
    }
    // A pipe would wait here for a reader, so this comes last.
    OpenOptions::new().write(true).open(rt, path)?;
    Ok(metadata)
}

/// A new file next to the one at a path, with its name.
fn create_beside<R: Files>(rt: &R, alloc: Global, path: &str) -> io::Result<(String, R::File)> {
    for number in 0..NAMES {
        let name = format!(in alloc; "{path}.{number}.new")?;
        match File::create_new(rt, name.as_str()) {
            Ok(file) => return Ok((name, file)),
            Err(error) if error.kind() == ErrorKind::AlreadyExists => {}
            Err(error) => return Err(error),
        }
    }
    Err(io::Error::from(ErrorKind::AlreadyExists))
}

/// Gives a new file the owner and the permissions of the old one, if there is one, before the
/// bytes, and flushes it to the disk.
fn fill<R: Files>(
    rt: &R,
    mut file: R::File,
    name: &str,
    old: Option<&Metadata>,
    bytes: &[u8],
) -> io::Result<()> {
    if let Some(old) = old {
        let new = file.metadata()?;
        if new.uid() != old.uid() || new.gid() != old.gid() {
            chown(rt, name, Some(old.uid()), Some(old.gid()))?;
        }
        file.set_permissions(old.permissions())?;
    }
    file.write_all(bytes)?;
    file.sync_all()
}
