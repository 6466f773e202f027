//! Files by their paths.

ghost use Rattle.std.specs.Prelude.{◌≡◌, ◌⊎◌, map, string_bytes, IfOk, IfErr, OnOk, OnErr};
ghost use Rattle.wgsl_files.specs.declared.store.StoreError.TheVariants as store;
ghost use Rattle.wgsl_files.specs.Files.{Files, Holds, IsAbsolute, Same, Replaced};
ghost use Rattle.wgsl_files.specs.Folders.{IsListing};
ghost use Rattle.wgsl_files.specs.Reading.{IsMissing, IsUnknown};

use std::alloc::{AllocError, AllocFailed, Global};
use std::io;

/// The reason why a file was not read or written.
#[derive(Clone, Copy, Debug)]
pub enum StoreError {
    OutOfMemory,
    Failed(io::Error),
}

impl From<AllocError> for StoreError {
    ghost from_gives = { λ _ error. error ≡ store.OutOfMemory };

    fn from(_error: AllocError) -> Self {
        StoreError::OutOfMemory
    }
}

impl<T: Drop> From<AllocFailed<T>> for StoreError {
    ghost from_gives = { λ _ error. error ≡ store.OutOfMemory };

    fn from(_error: AllocFailed<T>) -> Self {
        StoreError::OutOfMemory
    }
}

impl From<io::Error> for StoreError {
    ghost from_gives = { λ error made. (made ≡ store.OutOfMemory) ⊎ (made ≡ store.Failed error) };

    fn from(error: io::Error) -> Self {
        match error.kind() {
            io::ErrorKind::OutOfMemory => StoreError::OutOfMemory,
            _ => StoreError::Failed(error),
        }
    }
}

/// A place where files are kept.
pub trait Store {
    /// What it holds.
    ghost files: { Self → Files };

    /// Returns the paths of the files to format for a path that a user names. Of a folder these are
    /// the paths of all files in it and in its folders whose names end with `.wgsl`, in the order
    /// of their bytes, but none with a name that begins with `.` below the named one. Of anything
    /// else it is the path itself. For a folder that cannot be read its path is listed with a `/`
    /// at its end, where no file is: reading it gives the error. Where contracts know what the
    /// store holds, it fails only if an allocation fails.
    fn list(&self, alloc: Global, path: &str) -> Result<Vec<String>, StoreError>
        ensures listing { IfOk result (λ paths.
            IsListing (files self.now) path.now (map string_bytes paths.items)) }
        ensures failed { IfErr result (IsUnknown (files self.now)) };

    /// Returns a path from the root of the file system to the same file, which need not exist, or
    /// the path itself where none is found.
    fn absolute(&self, alloc: Global, path: &str) -> Result<String, AllocError>
        ensures { IfOk result (λ found.
            IsAbsolute (files self.now) path.now (string_bytes found)) };

    /// Reads the bytes of the file at a path. It fails where there is no file.
    fn read(&self, alloc: Global, path: &str) -> Result<Vec<u8>, StoreError>
        ensures bytes { IfOk result (λ bytes. Holds (files self.now) path.now bytes.items) }
        ensures missing { IfErr result (λ e. IsMissing (files self.now) path.now e) };

    /// Reads the bytes of the file at a path, as `read` does, but nothing of a device or a pipe,
    /// which may have no end: that is an error.
    fn read_regular(&self, alloc: Global, path: &str) -> Result<Vec<u8>, StoreError>
        ensures bytes { IfOk result (λ bytes. Holds (files self.now) path.now bytes.items) }
        ensures missing { IfErr result (λ e. IsMissing (files self.now) path.now e) };

    /// Puts these bytes at the path of a file in place of what it has. It fails only where there is
    /// no file. An `Err` changes nothing.
    fn replace(&mut self, alloc: Global, path: &str, bytes: &[u8]) -> Result<(), StoreError>
        ensures ok { OnOk result (Replaced (files self.old) (files self.new) path.now bytes.now) }
        ensures missing { IfErr result (λ e. IsMissing (files self.old) path.now e) }
        ensures err { OnErr result (Same (files self.old) (files self.new)) };

    /// Puts these bytes at a path: into a new file, or in place of what the file there has. Where
    /// contracts know what the store holds, it fails only if an allocation fails. An `Err` changes
    /// nothing.
    fn write(&mut self, alloc: Global, path: &str, bytes: &[u8]) -> Result<(), StoreError>
        ensures ok { OnOk result (Replaced (files self.old) (files self.new) path.now bytes.now) }
        ensures failed { IfErr result (IsUnknown (files self.old)) }
        ensures err { OnErr result (Same (files self.old) (files self.new)) };
}
