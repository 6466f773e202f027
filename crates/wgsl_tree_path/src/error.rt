//! Why a text is no path.

ghost use Rattle.std.specs.Prelude.{◌≡◌};
ghost use Rattle.wgsl_tree_path.specs.declared.error.ModulePathParseError.TheVariants as error;

use std::alloc::{AllocError, AllocFailed};
use thiserror::Error;

/// The reasons for which a text is not a path, or was not read.
#[derive(Clone, Copy, PartialEq, Eq, Debug, Error)]
pub enum ModulePathParseError {
    #[error("module name cannot be empty")]
    Empty,
    #[error("`package` must be a prefix of the module path")]
    MisplacedPackage,
    #[error("`self` must be a prefix of the module path")]
    MisplacedSelf,
    #[error("`super` must be a prefix of the module path")]
    MisplacedSuper,
    #[error("out of memory")]
    OutOfMemory,
}

impl From<AllocError> for ModulePathParseError {
    ghost from_gives = { λ _ e. e ≡ error.OutOfMemory };

    fn from(_error: AllocError) -> Self {
        ModulePathParseError::OutOfMemory
    }
}

/// A refusal that gives back what was to be stored.
impl<T: Drop> From<AllocFailed<T>> for ModulePathParseError {
    ghost from_gives = { λ _ e. e ≡ error.OutOfMemory };

    fn from(_error: AllocFailed<T>) -> Self {
        ModulePathParseError::from(AllocError)
    }
}
