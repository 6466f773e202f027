//! Why a run writes no minified text.

ghost use Rattle.std.specs.Prelude.{◌≡◌};
ghost use Rattle.wgsl_program.specs.World.{Says};
ghost use Rattle.wgsl_minify_files.specs.Failures.{message_of, code_of_failure, IsFailed};
ghost use Rattle.wgsl_files.specs.declared.store.StoreError.TheVariants as store;
ghost use Rattle.wgsl_minify_files.specs.declared.failure.Failure.TheVariants as failure;

use std::alloc::{AllocError, Global};
use std::io;
use std::io::Write;
use wgsl_files::{Refusal, Status, StoreError};
use wgsl_program::say;

/// What is reported where an allocation failed.
pub const MEMORY: &str = "wgslmin: error: out of memory\n";

/// The reason why a run writes no minified text, with its message.
#[derive(Debug, Drop)]
pub enum Failure {
    /// The source is not a module, or not UTF-8, or nests too deep.
    Refused(Refusal),
    /// A file could not be read or written.
    Failed(String),
    OutOfMemory,
}

impl From<AllocError> for Failure {
    ghost from_gives = { λ _ made. made ≡ failure.OutOfMemory };

    fn from(_error: AllocError) -> Self {
        Failure::OutOfMemory
    }
}

impl Failure {
    /// Returns that of a file of this name for the error of a store.
    pub fn of(alloc: Global, name: &str, error: StoreError) -> Failure
        ensures failed { IsFailed name.now result }
        ensures memory { error ≡ store.OutOfMemory → result ≡ failure.OutOfMemory }
    {
        match error {
            StoreError::Failed(error) => Failure::at(alloc, name, error),
            StoreError::OutOfMemory => Failure::OutOfMemory,
        }
    }

    /// That of a file of this name that could not be read or written.
    fn at(alloc: Global, name: &str, error: io::Error) -> Failure
        ensures { IsFailed name.now result }
    {
        match error.to_string(alloc) {
            Ok(reason) => Failure::for_reason(alloc, name, reason.as_str()),
            Err(_) => Failure::OutOfMemory,
        }
    }

    /// Returns that of a file of this name for a reason.
    pub fn for_reason(alloc: Global, name: &str, reason: &str) -> Failure
        ensures { IsFailed name.now result }
    {
        match format!(in alloc; "{name}: error: {reason}\n") {
            Ok(message) => Failure::Failed(message),
            Err(_) => Failure::OutOfMemory,
        }
    }

    /// Writes its message, and returns the status of the program.
    pub fn tell<E: Write>(&self, errors: &mut E) -> u8
        ensures { Says (message_of self.now) (code_of_failure self.now)
            (E.contents errors.old) (E.contents errors.new) result }
    {
        match self {
            Failure::Refused(refusal) => say(errors, refusal.message.as_str(), refusal.status),
            Failure::Failed(message) => say(errors, message.as_str(), Status::Failed),
            Failure::OutOfMemory => say(errors, MEMORY, Status::OutOfMemory),
        }
    }
}
