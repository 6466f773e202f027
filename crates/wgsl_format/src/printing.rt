//! The start of `wgslfmt`, which takes no arguments, over any reader and writers.

ghost use Rattle.std.specs.Prelude.{◌≡◌, ◌<◌};
ghost use Rattle.std.specs.Io.KnownBytes.{Appends};
ghost use Rattle.wgsl_model.specs.Program.{ProcessOutput, Formats};
ghost use Rattle.wgsl_format.specs.Deeper.{FormatsWithin};
ghost use Rattle.wgsl_format.specs.Ends.{GoesOut};
ghost use Rattle.wgsl_format.specs.Run.{Runs};
ghost use Rattle.wgsl_format.specs.RunOutput.{IsReprinted, no_arguments};

use crate::printer::Printer;
use crate::program::run_with;
use crate::streams::tell;
use std::alloc::Global;
use std::io::{Read, Write};

/// A printer of modules of any depth, for calls after which the process goes on.
const PRINTER: Printer = Printer {
    depth: None,
    ends: false,
};

/// Reads all of the input, then writes its canonical text to the output, or what is wrong with it to
/// the errors, and flushes that one, as `run_with` does. The stack grows with how deep the module
/// nests.
pub fn run<R: Read, W: Write, E: Write>(
    alloc: Global,
    input: &mut R,
    output: &mut W,
    errors: &mut E,
) -> u8
    ensures { Runs Formats IsReprinted
        (R.remaining input.old) (R.remaining input.new) W.contents output.old output.new
        (E.contents errors.old) (E.contents errors.new) result }
{
    run_with(alloc, &PRINTER, input, output, errors)
}

/// Runs the program, as `run` does, where it was given no arguments. Otherwise nothing is read.
pub fn start<R: Read, W: Write, E: Write>(
    alloc: Global,
    arguments: usize,
    input: &mut R,
    output: &mut W,
    errors: &mut E,
) -> u8
    ensures runs { arguments ≡ 0 → Runs Formats IsReprinted
        (R.remaining input.old) (R.remaining input.new) W.contents output.old output.new
        (E.contents errors.old) (E.contents errors.new) result }
    ensures unread { 0 < arguments → input.new ≡ input.old }
    ensures unwritten { 0 < arguments → output.new ≡ output.old }
    ensures told { 0 < arguments → (end : ProcessOutput) × GoesOut no_arguments end
        × (result ≡ end.status)
        × Appends (E.contents errors.old) (E.contents errors.new) end.errors }
{
    start_with(alloc, &PRINTER, arguments, input, output, errors)
}

/// Runs the program with a printer, as `run_with` does, where it was given no arguments. Otherwise
/// nothing is read.
pub fn start_with<R: Read, W: Write, E: Write>(
    alloc: Global,
    printer: &Printer,
    arguments: usize,
    input: &mut R,
    output: &mut W,
    errors: &mut E,
) -> u8
    ensures runs { arguments ≡ 0 → Runs (FormatsWithin printer.now.depth) IsReprinted
        (R.remaining input.old) (R.remaining input.new) W.contents output.old output.new
        (E.contents errors.old) (E.contents errors.new) result }

    // With arguments, the input and the output are not touched.
    ensures unread { 0 < arguments → input.new ≡ input.old }
    ensures unwritten { 0 < arguments → output.new ≡ output.old }
    ensures told { 0 < arguments → (end : ProcessOutput) × GoesOut no_arguments end
        × (result ≡ end.status)
        × Appends (E.contents errors.old) (E.contents errors.new) end.errors }
{
    if arguments == 0 {
        return run_with(alloc, printer, input, output, errors);
    }
    tell(errors, b"wgslfmt takes no arguments\n", 5)
}
