//! The minified text of what was read.

ghost use Rattle.std.specs.Prelude.{◌≡◌, ◌++◌, IfOk, IfErr, IfSome, chars, codes, string_bytes};
ghost use Rattle.std.specs.Option.{option_copied};
ghost use Rattle.wgsl_span.specs.View.{span_view};
ghost use Rattle.wgsl_error.specs.Places.{message_in_file};
ghost use Rattle.wgsl_error.specs.Printing.{print_message};
ghost use Rattle.wgsl_minify_names.specs.View.{texts};
ghost use Rattle.wgsl_tree_renamed.specs.NewNames.{pairs};
ghost use Rattle.wgsl_minify_files.specs.Failures.{IsNotUtf8, IsRefusal, IsRefusedFor, IsToldDeeper, IsTooDeep, Refuses};
ghost use Rattle.wgsl_minify_files.specs.Runs.{name_of, IsMinifiedText};
ghost use Rattle.wgsl_minify_files.specs.View.{options_view};

use crate::failure::Failure;
use crate::kept::check_kept;
use crate::options::Options;
use std::alloc::{AllocError, Global};
use wgsl_error::{Error, ErrorKind};
use wgsl_files::{Refusal, Status};
use wgsl_format::deeper_in_file;
use wgsl_minify::{Minified, MinifyOptions, minify_within};

/// How many levels deep a module may nest: a level takes at most 3,800 bytes of a stack of 8 MB, of
/// which a third is spare.
const DEPTH: usize = 1_400;

/// Returns the name of the file at a path in messages.
pub fn name_of(path: Option<&str>) -> &str
    ensures { result.now ≡ name_of (option_copied path.entry) }
{
    match path {
        Some(path) => path,
        None => "<stdin>",
    }
}

/// Minifies a source as is asked for. It fails only where the source is refused, which it also is
/// if a name to keep is nowhere in it, or an allocation fails.
pub fn minify_source(
    alloc: Global,
    options: &Options<'_>,
    source: &[u8],
) -> Result<Minified, Failure>
    ensures minified { IfOk result (λ it. IsMinifiedText (options_view options.now) source.now
        (pairs it.names) (string_bytes it.text)) }
    ensures refused { IfErr result
        (IsRefusal (Refuses (name_of (option_copied options.now.input))
        (texts options.now.keep.items) source.now)) }
{
    let name = name_of(options.input);
    let Ok(text) = std::str::from_utf8(source) else {
        return Err(not_utf8(alloc, name));
    };
    let keep = options.keep.as_slice();
    let asked = MinifyOptions {
        names: options.names,
        keep,
    };
    // A statement or an expression that nests in nothing is a level there.
    match minify_within(alloc, text, asked, DEPTH + 1) {
        Ok(minified) => {
            check_kept(alloc, name, text, keep)?;
            Ok(minified)
        }
        Err(error) => Err(refusal(alloc, name, text, error)),
    }
}

/// The failure for a source of a file of this name that is not UTF-8.
fn not_utf8(alloc: Global, name: &str) -> Failure
    ensures { IsRefusal (IsNotUtf8 name.now) result }
{
    match format!(in alloc; "{name}: error: not UTF-8\n") {
        Ok(message) => Failure::Refused(Refusal {
            status: Status::Refused,
            message,
        }),
        Err(_) => Failure::OutOfMemory,
    }
}

/// The failure for an error in the source of a file of this name.
#[tactic(auto, using(crate::proofs::Failures::deep_refused, crate::proofs::Failures::error_refused))]
fn refusal(alloc: Global, name: &str, source: &str, error: Error) -> Failure
    ensures { IsRefusal (IsRefusedFor name.now (chars source.now) error) result }
{
    if matches!(error.error, ErrorKind::OutOfMemory) {
        return too_deep(alloc, name, source);
    }
    match message_of(alloc, name, source, &error) {
        Ok(message) => Failure::Refused(Refusal {
            status: Status::Refused,
            message,
        }),
        Err(_) => Failure::OutOfMemory,
    }
}

/// The failure for a source of a file of this name that takes too much memory, which may be that of
/// a stack.
fn too_deep(alloc: Global, name: &str, source: &str) -> Failure
    ensures { IsRefusal (IsTooDeep name.now (chars source.now)) result }
{
    match deeper_message(alloc, name, source) {
        Ok(Some(message)) => Failure::Refused(Refusal {
            status: Status::OutOfMemory,
            message,
        }),
        _ => Failure::OutOfMemory,
    }
}

/// What is reported of a source of a file of this name that nests too deep.
#[tactic(auto, using(crate::proofs::Failures::deep_told))]
fn deeper_message(alloc: Global, name: &str, source: &str) -> Result<Option<String>, AllocError>
    ensures { IfOk result (λ told. IfSome told (λ message.
        IsToldDeeper name.now (chars source.now) (string_bytes message))) }
{
    let found = deeper_in_file(alloc, name, source, DEPTH)?;
    let Some(mut message) = found else {
        return Ok(None);
    };
    message.push('\n')?;
    Ok(Some(message))
}

/// What is reported of an error in the source of a file of this name.
fn message_of(alloc: Global, name: &str, source: &str, error: &Error) -> Result<String, AllocError>
    ensures { IfOk result (λ text. string_bytes text ≡ message_in_file name.now
        (print_message error.now.error) (chars source.now) (span_view error.now.span)
        ++ codes "\n") }
{
    let mut message = error.in_file(name, source).to_string(alloc)?;
    message.push('\n')?;
    Ok(message)
}
