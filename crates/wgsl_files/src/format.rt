//! What becomes of the text of a file.

ghost use Rattle.std.specs.Prelude.{ℕ, List, IfOk, IfErr};
ghost use Rattle.wgsl_files.specs.declared.status.Status.{Status};
ghost use Rattle.wgsl_files.specs.Rewriting.{IsRefusal};

use crate::status::Status;
use std::alloc::Global;

/// Why a text is refused: the status that this calls for, and the message.
#[derive(Debug, Drop)]
pub struct Refusal {
    pub status: Status,
    pub message: String,
}

/// The reason why a text was not formatted.
#[derive(Debug, Drop)]
pub enum FormatError {
    OutOfMemory,
    Refused(Refusal),
}

/// A way to format texts.
pub trait Format {
    /// Whether the first text becomes the second.
    ghost becomes: { Self → List ℕ → List ℕ → Type 0 };

    /// Whether a text is refused with a status and a message.
    ghost refuses: { Self → List ℕ → Status → List ℕ → Type 0 };

    /// Formats a text.
    fn format(&self, alloc: Global, text: &[u8]) -> Result<Vec<u8>, FormatError>
        ensures ok { IfOk result (λ formatted. becomes self.now text.now formatted.items) }
        ensures err { IfErr result (λ e. IsRefusal (refuses self.now text.now) e) };
}
