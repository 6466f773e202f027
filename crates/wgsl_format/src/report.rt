//! What a program reports of its input.

ghost use Rattle.std.specs.Prelude.{◌≡◌, ◌<◌, ◌++◌, chars, codes, IfOk};
ghost use Rattle.std.specs.Io.KnownBytes.{Appends};
ghost use Rattle.wgsl_model.specs.Program.{ProcessOutput, complaint, shown_fault};
ghost use Rattle.wgsl_error.specs.View.{fault_view};
ghost use Rattle.wgsl_error.specs.declared.ErrorKind.TheVariants as kinds;
ghost use Rattle.wgsl_format.specs.Deeper.{IsTooDeep};
ghost use Rattle.wgsl_format.specs.Ends.{IsDueUnread, GoesOut};
ghost use Rattle.wgsl_format.specs.Report.{outcome_of};

use crate::deeper::{deeper_at, deeper_message};
use crate::streams::{FAILED, ReadError, refuse_memory, tell};
use std::alloc::{AllocError, Global};
use std::io::Write;
use wgsl_error::{Error, ErrorKind};

/// The outcome of an input: what is to be written, and the status that goes with it.
#[derive(Drop)]
pub enum Report {
    /// The text for the output, with status 0.
    Written(String),
    /// The line of the fault that is named, for the errors: status 1.
    Refused(String),
    /// The source is no text: status 2.
    NotUtf8,
    /// The line of the place where the source nests too deep, for the errors: status 3.
    TooDeep(String),
    /// An allocation failed: status 3.
    OutOfMemory,
    /// A read failed: nothing is written, with status 4.
    Unread,
}

/// What is to be written where the input could not be read.
pub(crate) fn unread(error: ReadError) -> Report
    ensures { IsDueUnread error (outcome_of result) }
{
    match error {
        ReadError::OutOfMemory => Report::OutOfMemory,
        ReadError::Failed => Report::Unread,
    }
}

/// What is to be written where the source is refused, unless that is for a failed allocation.
pub(crate) fn refused(alloc: Global, error: Error) -> Result<Report, AllocError>
    ensures told { IfOk result (λ report.
        outcome_of report ≡ complaint 1 (shown_fault (fault_view error) ++ codes "\n")) }
    ensures memory { IfOk result (λ _. ¬ (error.error ≡ kinds.OutOfMemory)) }
{
    match error.error {
        ErrorKind::OutOfMemory => Err(AllocError),
        _ => Ok(Report::Refused(format!(in alloc; "{}\n", error.without_expected())?)),
    }
}

/// What is to be written where the source could not be read and may nest a number of levels deep,
/// unless that is for a failed allocation: where it nests deeper.
pub(crate) fn too_deep(alloc: Global, source: &str, depth: usize) -> Result<Report, AllocError>
    ensures { IfOk result (λ report. IsTooDeep depth (chars source.now) (outcome_of report)) }
{
    let Some(span) = deeper_at(alloc, source, depth)? else {
        return Err(AllocError);
    };
    let message = deeper_message(alloc, depth)?;
    let line = format!(in alloc; "chars {}..{}: {message}\n", span.start, span.end)?;
    Ok(Report::TooDeep(line))
}

/// Sends the report to the writer that it is for, and returns its status, or `FAILED`.
pub(crate) fn deliver<W: Write, E: Write>(report: &Report, output: &mut W, errors: &mut E) -> u8
    ensures sent { (end : ProcessOutput) × GoesOut (outcome_of report.now) end
        × (result ≡ end.status)
        × Appends (W.contents output.old) (W.contents output.new) end.output
        × Appends (E.contents errors.old) (E.contents errors.new) end.errors }
    // Nothing but the text for the output touches it.
    ensures spared { 0 < (outcome_of report.now).status → output.new ≡ output.old }
{
    match report {
        Report::Written(text) => tell(output, text.as_str().as_bytes(), 0),
        Report::Refused(line) => tell(errors, line.as_bytes(), 1),
        Report::NotUtf8 => tell(errors, b"input is not UTF-8\n", 2),
        Report::TooDeep(line) => tell(errors, line.as_bytes(), 3),
        Report::OutOfMemory => refuse_memory(errors),
        Report::Unread => FAILED,
    }
}
