//! A run of a program: it reads its input, and writes what its formatter makes of that.

ghost use Rattle.std.specs.Prelude.{◌≡◌, IfOk};
ghost use Rattle.wgsl_format.specs.Ends.{IsDue};
ghost use Rattle.wgsl_format.specs.Report.{outcome_of};
ghost use Rattle.wgsl_format.specs.Run.{Runs};

use crate::formatter::Formatter;
use crate::report::{Report, deliver, unread};
use crate::streams::{ReadError, read_all};
use std::alloc::Global;
use std::io::{Read, Write};

/// Reads all of the input, then writes what it asks for to the output or to the errors, and flushes
/// that one. Where a read failed, nothing is written.
pub fn run_with<F: Formatter, R: Read, W: Write, E: Write>(
    alloc: Global,
    format: &F,
    input: &mut R,
    output: &mut W,
    errors: &mut E,
) -> u8
    ensures { Runs (F.writes format.now) (F.is_made_of format.now)
        (R.remaining input.old) (R.remaining input.new) W.contents output.old output.new
        (E.contents errors.old) (E.contents errors.new) result }
{
    let report = report_of(alloc, format, read_all(alloc, input));
    deliver(&report, output, errors)
}

/// What is to be written of what was read.
fn report_of<F: Formatter>(alloc: Global, format: &F, read: Result<Vec<u8>, ReadError>) -> Report
    ensures due { IsDue (F.writes format.now) read (outcome_of result) }
    ensures made { IfOk read (λ all. (outcome_of result).status ≡ 0 →
        F.is_made_of format.now all.items (outcome_of result).output) }
{
    match read {
        Ok(source) => format.report(alloc, &source).unwrap_or(Report::OutOfMemory),
        Err(error) => unread(error),
    }
}
