//! The program: what its arguments ask for.

ghost use Rattle.std.specs.Prelude.{◌≡◌, map, string_bytes};
ghost use Rattle.std.specs.Option.{option_copied};
ghost use Rattle.wgsl_format_options.specs.Options.{asked};
ghost use Rattle.wgsl_format_options.specs.View.{options_view};
ghost use Rattle.wgsl_format_files.specs.Inputs.{input_view};
ghost use Rattle.wgsl_format_files.specs.Configs.{BecomesBy};
ghost use Rattle.wgsl_format_files.specs.Runs.{Runs, state};
ghost use Rattle.wgsl_format_files.specs.Tidy.{Refuses};
ghost use Rattle.wgsl_program.specs.World.{world, Says};
ghost use Rattle.wgsl_format_files.specs.Start.{memory_text, argument_text};
ghost use Rattle.wgsl_format_files.specs.Start.{name_of, IsOptionsRun, IsStart};

use crate::inputs::{Input, inputs_of};
use crate::run::{How, format_all};
use std::alloc::Global;
use std::io::{Read, Write};
use wgsl_files::{Status, Store};
use wgsl_format_options::{Options, read_options};
use wgsl_program::{say, tell};

/// What is reported where an allocation failed.
const MEMORY: &str = "wgsltidy: error: out of memory\n";

/// Runs `wgsltidy` with these arguments, without its own name, over these files and streams.
/// Returns its status.
pub fn start<S: Store, R: Read, W: Write, E: Write>(
    alloc: Global,
    arguments: &[String],
    store: &mut S,
    input: &mut R,
    output: &mut W,
    errors: &mut E,
) -> u8
    ensures { IsStart (asked (map string_bytes arguments.now))
        (world (S.files store.old) (R.remaining input.old)
        (W.contents output.old) (E.contents errors.old))
        (world (S.files store.new) (R.remaining input.new)
        (W.contents output.new) (E.contents errors.new)) result }
{
    match read_options(alloc, arguments) {
        Ok(options) => format_sources(alloc, &options, store, input, output, errors),
        Err(error) => tell(alloc, &error, MEMORY, output, errors),
    }
}

/// Formats the sources that are asked for.
fn format_sources<S: Store, R: Read, W: Write, E: Write>(
    alloc: Global,
    options: &Options<'_>,
    store: &mut S,
    input: &mut R,
    output: &mut W,
    errors: &mut E,
) -> u8
    ensures { IsOptionsRun (options_view options.now)
        (world (S.files store.old) (R.remaining input.old)
        (W.contents output.old) (E.contents errors.old))
        (world (S.files store.new) (R.remaining input.new)
        (W.contents output.new) (E.contents errors.new)) result }
{
    match inputs_of(alloc, store, options.sources.as_slice()) {
        Ok(inputs) => format_inputs(
            alloc,
            options,
            inputs.as_slice(),
            store,
            input,
            output,
            errors,
        ),
        Err(_) => refuse_memory(errors),
    }
}

/// Formats inputs as is asked for.
fn format_inputs<S: Store, R: Read, W: Write, E: Write>(
    alloc: Global,
    options: &Options<'_>,
    inputs: &[Input],
    store: &mut S,
    input: &mut R,
    output: &mut W,
    errors: &mut E,
) -> u8
    ensures { Runs (BecomesBy options.now.choices (option_copied options.now.stdin_path)) Refuses
        options.now.mode options.now.quiet
        (name_of (options_view options.now)) (map input_view inputs.now)
        (state (S.files store.old) (R.remaining input.old))
        (state (S.files store.new) (R.remaining input.new))
        (W.contents output.old) (W.contents output.new)
        (E.contents errors.old) (E.contents errors.new) result }
{
    let how = How {
        mode: options.mode,
        quiet: options.quiet,
        stdin_path: options.stdin_path,
        stdin_name: name_of(options),
        choices: options.choices,
    };
    format_all(alloc, store, how, inputs, input, output, errors).code()
}

/// The name of the standard input in messages.
fn name_of<'a>(options: &Options<'a>) -> &'a str
    ensures { result.now ≡ name_of (options_view options.now) }
{
    match options.stdin_path {
        Some(name) => name,
        None => "<stdin>",
    }
}

/// Reports that an allocation failed.
pub fn refuse_memory<E: Write>(errors: &mut E) -> u8
    ensures { Says memory_text 5 (E.contents errors.old) (E.contents errors.new) result }
{
    say(errors, MEMORY, Status::OutOfMemory)
}

/// Reports that an argument is not UTF-8.
pub fn refuse_argument<E: Write>(errors: &mut E) -> u8
    ensures { Says argument_text 2 (E.contents errors.old) (E.contents errors.new) result }
{
    say(
        errors,
        "wgsltidy: error: an argument is not UTF-8\n",
        Status::Usage,
    )
}
