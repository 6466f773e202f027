//! The formatter of `wgsltidy` for files.

ghost use Rattle.std.specs.Prelude.{chars};
ghost use Rattle.wgsl_files.specs.Rewriting.{IsRefusal};
ghost use Rattle.wgsl_format.specs.RunOutput.{IsTidiedBy};
ghost use Rattle.wgsl_format_layout.specs.Layouts.{layout_view};
ghost use Rattle.wgsl_format_files.specs.Tidy.{Refuses, IsRefusedFor, IsNotUtf8, IsTooDeep};

use std::alloc::Global;
use wgsl_error::{Error, ErrorKind};
use wgsl_files::{Format, FormatError, Refusal, Status};
use wgsl_format::{Layout, deeper_in_file, tidy_within, unmarked, with_expected};
use wgsl_report::{error_in_file, undecoded_in_file};

/// How many levels deep a module may nest, so that a stack of 8 MB has room for all that is
/// accepted, which may be a few times as deep where a level takes few calls.
const DEPTH: usize = 2_000;

/// The formatter of `wgsltidy` for files: a module becomes its formatted text by a layout. The
/// message of a refusal is what follows the name of the file: the place and the error.
#[derive(Clone, Copy, Debug)]
pub struct Tidy {
    pub layout: Layout,
}

impl Format for Tidy {
    ghost becomes = { λ tidy text formatted.
        IsTidiedBy (layout_view tidy.layout) text formatted };

    ghost refuses = { λ _ text status message. Refuses text status message };

    fn format(&self, alloc: Global, text: &[u8]) -> Result<Vec<u8>, FormatError> {
        let Ok(source) = std::str::from_utf8(text) else {
            return Err(not_utf8(alloc, text));
        };
        match tidy_within(alloc, source, self.layout, DEPTH) {
            Ok(formatted) => Ok(formatted.into_bytes()),
            Err(error) => Err(refusal(alloc, source, error)),
        }
    }
}

/// The refusal of a source for an error in it.
#[tactic(auto, using(crate::proofs::Refusals::deep_refused, crate::proofs::Refusals::error_refused))]
fn refusal(alloc: Global, source: &str, error: Error) -> FormatError
    ensures { IsRefusal (IsRefusedFor error (chars source.now)) result }
{
    if matches!(error.error, ErrorKind::OutOfMemory) {
        return too_deep(alloc, source);
    }
    let error = with_expected(alloc, source, error);
    match error_in_file(alloc, "", &error, source) {
        Ok(message) => FormatError::Refused(Refusal {
            status: Status::Refused,
            message,
        }),
        Err(_) => FormatError::OutOfMemory,
    }
}

/// The refusal of a source that takes too much memory, which may be that of a stack.
#[tactic(auto, using(crate::proofs::Refusals::deep_told))]
fn too_deep(alloc: Global, source: &str) -> FormatError
    ensures { IsRefusal (IsTooDeep (chars source.now)) result }
{
    match deeper_in_file(alloc, "", unmarked(source), DEPTH) {
        Ok(Some(message)) => FormatError::Refused(Refusal {
            status: Status::OutOfMemory,
            message,
        }),
        _ => FormatError::OutOfMemory,
    }
}

/// The refusal of bytes that are no text.
#[tactic(auto, using(crate::proofs::Refusals::undecoded_told))]
fn not_utf8(alloc: Global, bytes: &[u8]) -> FormatError
    ensures { IsRefusal (IsNotUtf8 bytes.now) result }
{
    match undecoded_in_file(alloc, "", bytes) {
        Ok(Some(message)) => FormatError::Refused(Refusal {
            status: Status::Refused,
            message,
        }),
        _ => FormatError::OutOfMemory,
    }
}
