//! The program: what its arguments ask for.

ghost use Rattle.std.specs.Prelude.{map, string_bytes};
ghost use Rattle.wgsl_program.specs.World.{world, Says};
ghost use Rattle.wgsl_minify_files.specs.Failures.{memory_text};
ghost use Rattle.wgsl_minify_files.specs.Options.{asked};
ghost use Rattle.wgsl_minify_files.specs.Start.{IsStart, argument_text};

use crate::failure::{Failure, MEMORY};
use crate::options::read_options;
use crate::run::run;
use std::alloc::Global;
use std::io::{Read, Write};
use wgsl_files::{Status, Store};
use wgsl_program::{say, tell};

/// Runs `wgslmin` with these arguments, without its own name, over these files and streams.
/// Returns its status.
pub fn start<S: Store, R: Read, W: Write, E: Write>(
    alloc: Global,
    arguments: &[String],
    store: &mut S,
    input: &mut R,
    output: &mut W,
    errors: &mut E,
) -> u8
    ensures { IsStart (asked (map string_bytes arguments.now))
        (world (S.files store.old) (R.remaining input.old)
        (W.contents output.old) (E.contents errors.old))
        (world (S.files store.new) (R.remaining input.new)
        (W.contents output.new) (E.contents errors.new)) result }
{
    match read_options(alloc, arguments) {
        Ok(options) => run(alloc, &options, store, input, output, errors),
        Err(error) => tell(alloc, &error, MEMORY, output, errors),
    }
}

/// Reports that an allocation failed.
pub fn refuse_memory<E: Write>(errors: &mut E) -> u8
    ensures { Says memory_text 5 (E.contents errors.old) (E.contents errors.new) result }
{
    Failure::OutOfMemory.tell(errors)
}

/// Reports that an argument is not UTF-8.
pub fn refuse_argument<E: Write>(errors: &mut E) -> u8
    ensures { Says argument_text 2 (E.contents errors.old) (E.contents errors.new) result }
{
    say(
        errors,
        "wgslmin: error: an argument is not UTF-8\n",
        Status::Usage,
    )
}
