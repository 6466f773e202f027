//! What a program makes of the bytes that it reads.

ghost use Rattle.std.specs.Prelude.{◌≡◌, ℕ, List, IfOk};
ghost use Rattle.wgsl_model.specs.Program.{ProcessOutput};
ghost use Rattle.wgsl_format.specs.Report.{outcome_of};

use crate::report::Report;
use std::alloc::{AllocError, Global};

/// A formatter of the bytes that a program reads.
pub trait Formatter {
    /// What it has to write of these bytes.
    ghost writes: { Self → List ℕ → ProcessOutput → Type 0 };

    /// What holds of these bytes and the text that it writes of them with status 0.
    ghost is_made_of: { Self → List ℕ → List ℕ → Type 0 };

    /// Returns what is to be written for the source.
    fn report(&self, alloc: Global, source: &[u8]) -> Result<Report, AllocError>
        ensures due { IfOk result (λ report. writes self.now source.now (outcome_of report)) }
        ensures made { IfOk result (λ report. (outcome_of report).status ≡ 0 →
            is_made_of self.now source.now (outcome_of report).output) };
}
