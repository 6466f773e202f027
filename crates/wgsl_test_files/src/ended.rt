//! A format that ends each line with an LF, and refuses texts with a `!`.

ghost use Rattle.std.specs.Prelude.{ℕ, List};

use std::alloc::Global;
use wgsl_files::{Format, FormatError, Refusal, Status};

/// The format of texts that end with an LF.
#[derive(Clone, Copy)]
pub struct Ended;

impl Format for Ended {
    ghost becomes = { λ _ _ _. Unit {0} };

    ghost refuses = { λ _ _ _ _. Unit {0} };

    fn format(&self, alloc: Global, text: &[u8]) -> Result<Vec<u8>, FormatError> {
        if text.contains(&b'!') {
            return match String::from_str(alloc, "1:1: error: a `!`") {
                Ok(message) => Err(FormatError::Refused(Refusal {
                    status: Status::Refused,
                    message,
                })),
                Err(_) => Err(FormatError::OutOfMemory),
            };
        }
        let Ok(mut ended) = Vec::from_slice(alloc, text) else {
            return Err(FormatError::OutOfMemory);
        };
        if !text.ends_with(b"\n") && ended.push(b'\n').is_err() {
            return Err(FormatError::OutOfMemory);
        }
        Ok(ended)
    }
}
