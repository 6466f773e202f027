//! Why a file was not rewritten.

ghost use Rattle.std.specs.Prelude.{◌≡◌};
ghost use Rattle.wgsl_files.specs.Rewriting.{file_error_of};

use crate::format::Refusal;
use crate::store::StoreError;
use std::io;

/// The reason why a file was not rewritten.
#[derive(Debug, Drop)]
pub enum FileError {
    OutOfMemory,
    /// It could not be read or written.
    Failed(io::Error),
    /// Its text is refused.
    Refused(Refusal),
}

impl From<StoreError> for FileError {
    ghost from_gives = { λ error made. made ≡ file_error_of error };

    fn from(error: StoreError) -> Self {
        match error {
            StoreError::OutOfMemory => FileError::OutOfMemory,
            StoreError::Failed(error) => FileError::Failed(error),
        }
    }
}
