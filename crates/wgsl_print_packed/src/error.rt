//! Why nothing is printed of a packed form.

ghost use Rattle.std.specs.Prelude.{◌≡◌};
ghost use Rattle.wgsl_print_packed.specs.declared.error.PackedError.TheVariants as errors;

use std::alloc::{AllocError, AllocFailed};
use std::fmt;
use std::fmt::Write;

/// The reasons for which nothing is printed of a packed form.
#[derive(Clone, Copy, Debug, PartialEq, Eq)]
pub enum PackedError {
    /// An allocation failed.
    OutOfMemory,
    /// The bytes are not the packed form of a tree.
    NotPacked,
}

impl From<AllocError> for PackedError {
    ghost from_gives = { λ _ error. error ≡ errors.OutOfMemory };

    fn from(_: AllocError) -> Self {
        Self::OutOfMemory
    }
}

impl<T: Drop> From<AllocFailed<T>> for PackedError {
    ghost from_gives = { λ _ error. error ≡ errors.OutOfMemory };

    fn from(_: AllocFailed<T>) -> Self {
        PackedError::from(AllocError)
    }
}

impl fmt::Display for PackedError {
    fn fmt<W: fmt::Write>(&self, f: &mut fmt::Formatter<W>) -> fmt::Result {
        match self {
            PackedError::OutOfMemory => f.write_str("an allocation failed"),
            PackedError::NotPacked => f.write_str("the bytes are not the packed form of a tree"),
        }
    }
}

impl std::error::Error for PackedError {}
