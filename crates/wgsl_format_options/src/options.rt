//! What the arguments ask for.

ghost use Rattle.std.specs.Prelude.{◌≡◌, map, string_bytes, IfOk};
ghost use Rattle.std.specs.Option.{option_copied};
ghost use Rattle.clap.specs.Walk.{texts};
ghost use Rattle.wgsl_format_options.specs.Options as plain;
ghost use Rattle.wgsl_format_options.specs.View.{source_view, Gives};

use crate::chosen::choices_of;
use crate::command::command;
use clap::Error;
use clap::error::ErrorKind;
use std::alloc::{AllocError, Global};
use wgsl_choices::Choices;

/// The request of arguments: which files are formatted, and how.
#[derive(Debug, Drop)]
pub struct Options<'a> {
    pub mode: Mode,
    /// Print no summary.
    pub quiet: bool,
    /// The name of the standard input in messages.
    pub stdin_path: Option<&'a str>,
    /// What is chosen of the layout.
    pub choices: Choices,
    pub sources: Vec<Source<'a>>,
}

/// The choice what becomes of a file whose text is not the formatted one.
#[derive(Clone, Copy, Debug, PartialEq, Eq)]
pub enum Mode {
    /// It is written in place.
    Write,
    /// It is named.
    Check,
    /// What would change is shown. With `--check` too this holds.
    Diff,
}

/// A place where a text is read.
#[derive(Clone, Copy, Debug, PartialEq, Eq)]
pub enum Source<'a> {
    StandardInput,
    /// A file, or the files of a folder.
    Path(&'a str),
}

/// Returns what arguments ask for, without the program's name. Otherwise the error has the text to
/// print: what is wrong with them, or what `--help` or `--version` prints.
pub fn read_options<'a>(alloc: Global, arguments: &'a [String]) -> Result<Options<'a>, Error>
    ensures { Gives (plain.asked (map string_bytes arguments.now)) result }
{
    let mut command = command(alloc)?;
    let matches = command.try_get_matches_from_mut(arguments)?;
    let width = matches.get_str("width");
    let indent = matches.get_str("indent");
    let newlines = matches.get_str("newlines");
    let choices = match choices_of(width, indent, newlines) {
        Ok(choices) => choices,
        Err(wrong) => return Err(command.error(ErrorKind::InvalidValue, wrong)?),
    };
    let check = is_given(matches.get_str("check"));
    let diff = is_given(matches.get_str("diff"));
    let paths = matches.get_strs("PATH").unwrap_or(&[]);
    let sources = sources_of(alloc, paths)?;
    Ok(Options {
        mode: mode_of(check, diff),
        quiet: is_given(matches.get_str("quiet")),
        stdin_path: matches.get_str("stdin-path"),
        choices,
        sources,
    })
}

/// Whether an option without a value is given, by what `clap` has as its value.
fn is_given(value: Option<&str>) -> bool
    ensures { result ≡ plain.is_given (option_copied value.entry) }
{
    match value {
        Some(value) => value == "true",
        None => false,
    }
}

/// How files are formatted where these options are given.
fn mode_of(check: bool, diff: bool) -> Mode
    ensures { result ≡ plain.mode_of check diff }
{
    match (check, diff) {
        (_, true) => Mode::Diff,
        (true, false) => Mode::Check,
        (false, false) => Mode::Write,
    }
}

/// What paths name.
fn sources_of<'a>(alloc: Global, paths: &[&'a str]) -> Result<Vec<Source<'a>>, AllocError>
    ensures { IfOk result (λ sources.
        map source_view sources.items ≡ map plain.source_of (texts paths.now)) }
{
    let mut sources = Vec::new(alloc);
    for path in paths {
        sources.push(source_of(path))?;
    }
    Ok(sources)
}

/// What a path names: `-` the standard input.
fn source_of(path: &str) -> Source<'_>
    ensures { source_view result ≡ plain.source_of path.now }
{
    if path == "-" {
        Source::StandardInput
    } else {
        Source::Path(path)
    }
}
