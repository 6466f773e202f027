//! The files of the system, and what else there is to write to.

ghost use Rattle.wgsl_files.specs.Files.{unknown};

use std::alloc::{AllocError, Global};
use std::fs::OpenOptions;
use std::io;
use std::io::Write;
use std::rt::Files;
use wgsl_files::{HostStore, Store, StoreError};

/// The files of a `HostStore`, and what else there is, such as a pipe or a device: a text is
/// written to it, after what was written before, and it stays. Contracts say nothing of what it
/// holds.
#[derive(Drop)]
pub struct HostOutputs<'a, R> {
    pub files: HostStore<'a, R>,
}

impl<'a, R: Files + AllocGlobal + Clone + Drop> Store for HostOutputs<'a, R> {
    ghost files = { λ _. unknown };

    fn list(&self, alloc: Global, path: &str) -> Result<Vec<String>, StoreError> {
        self.files.list(alloc, path)
    }

    fn absolute(&self, alloc: Global, path: &str) -> Result<String, AllocError> {
        self.files.absolute(alloc, path)
    }

    fn read(&self, alloc: Global, path: &str) -> Result<Vec<u8>, StoreError> {
        self.files.read(alloc, path)
    }

    fn read_regular(&self, alloc: Global, path: &str) -> Result<Vec<u8>, StoreError> {
        self.files.read_regular(alloc, path)
    }

    fn replace(&mut self, alloc: Global, path: &str, bytes: &[u8]) -> Result<(), StoreError> {
        self.files.replace(alloc, path, bytes)
    }

    /// Only a regular file is replaced, and not by the path of what is open in this process: its
    /// next text would be lost. An error may leave a beginning of the bytes in what is not replaced.
    fn write(&mut self, alloc: Global, path: &str, bytes: &[u8]) -> Result<(), StoreError> {
        if is_open(path) || is_there_but_no_file(self.files.rt, path) {
            return Ok(append(self.files.rt, path, bytes)?);
        }
        self.files.write(alloc, path, bytes)
    }
}

/// Whether a path is that of what is open in this process.
fn is_open(path: &str) -> bool {
    path == "/dev/stderr" || path.starts_with("/dev/fd/") || path.starts_with("/proc/self/fd/")
}

/// Whether a path leads to something, but not to a regular file.
fn is_there_but_no_file<R: Files>(rt: &R, path: &str) -> bool {
    match std::fs::metadata(rt, path) {
        Ok(metadata) => !metadata.is_file(),
        Err(_) => false,
    }
}

/// Writes bytes at the end of what a path leads to.
fn append<R: Files>(rt: &R, path: &str, bytes: &[u8]) -> io::Result<()> {
    let mut file = OpenOptions::new().append(true).open(rt, path)?;
    file.write_all(bytes)
}
