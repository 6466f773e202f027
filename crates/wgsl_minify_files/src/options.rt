//! What the arguments ask for.

ghost use Rattle.std.specs.Prelude.{◌≡◌, false, [], map, flat_map, option_map, string_bytes, IfOk};
ghost use Rattle.std.specs.List.{slice_split};
ghost use Rattle.std.specs.Option.{option_copied, unwrap_or};
ghost use Rattle.clap.specs.Words.{app_of, rule_of};
ghost use Rattle.wgsl_minify_names.specs.View.{texts, which_view};
ghost use Rattle.wgsl_minify_files.specs.Options as plain;
ghost use Rattle.wgsl_minify_files.specs.View.{options_view, target_view, Gives};

use clap::error::ErrorKind;
use clap::{Arg, ArgAction, Command, Error};
use std::alloc::{AllocError, Global};
use wgsl_minify::Which;

/// Where a text is written.
#[derive(Clone, Copy, Debug, PartialEq, Eq)]
pub enum Target<'a> {
    /// To the standard output.
    Output,
    /// To the file at a path.
    File(&'a str),
}

/// The request of arguments.
#[derive(Debug, Drop)]
pub struct Options<'a> {
    /// The path of the module. With `None` it is read from the standard input.
    pub input: Option<&'a str>,
    /// Where the minified text is written.
    pub output: Target<'a>,
    /// Where the JSON of the new names is written. With `None` it is not.
    pub map: Option<Target<'a>>,
    pub names: Which,
    pub keep: Vec<&'a str>,
}

/// Returns what arguments ask for, without the program's name. Otherwise the error has the text to
/// print: what is wrong with them, or what `--help` or `--version` prints.
pub fn read_options<'a>(alloc: Global, arguments: &'a [String]) -> Result<Options<'a>, Error>
    ensures { Gives (plain.asked (map string_bytes arguments.now)) result }
{
    let mut command = command(alloc)?;
    let matches = command.try_get_matches_from_mut(arguments)?;
    let Some(names) = which_of(matches.get_str("names")) else {
        return Err(command.error(ErrorKind::InvalidValue, WRONG_NAMES)?);
    };
    let keep = kept_names(alloc, matches.get_strs("keep"))?;
    let options = Options {
        input: path_of(matches.get_str("FILE")),
        output: output_of(matches.get_str("output")),
        map: map_of(matches.get_str("map")),
        names,
        keep,
    };
    with_own_map(&mut command, options)
}

/// What is asked for, where the new names are written to another place than that of the module and
/// of its text.
fn with_own_map<'a>(command: &mut Command<'_>, options: Options<'a>) -> Result<Options<'a>, Error>
    ensures { Gives (plain.with_own_map (options_view options.entry)) result }
{
    if is_taken(options.map, options.input, options.output) {
        return Err(command.error(ErrorKind::ArgumentConflict, WRONG_MAP)?);
    }
    Ok(options)
}

/// What is wrong with another value of `--names`.
const WRONG_NAMES: &str = "option '--names' takes none, locals or all";

/// What is wrong with a place of `--map` that is that of the module or of its text.
const WRONG_MAP: &str =
    "option '--map' takes a file of its own, or with '--output' the standard output";

/// The end of the text of `--help`.
const AFTER_HELP: &str = "\
Each name that is declared gets a new name, but those of members, entry points and overrides, and
those in a list of --keep.

Status: 0 success, 2 wrong arguments, 3 the module has an error or is not UTF-8, 4 a file could not
be read or written, 5 out of memory.";

/// The program's options and its version.
fn command<'a>(alloc: Global) -> Result<Command<'a>, AllocError>
    ensures { IfOk result (λ command. app_of command ≡ plain.command) }
{
    let file = Arg::new(alloc, "FILE").help("The module; with none or - the standard input");
    let output = setting(alloc, "output", "FILE", "Write the text to a file").short('o');
    let names = setting(
        alloc,
        "names",
        "WHICH",
        "The names that get new ones: none, locals or all [default: all]",
    );
    let keep = setting(
        alloc,
        "keep",
        "NAME[,NAME]..",
        "Names of the module that stay; may be repeated",
    )
    .action(ArgAction::Append);
    let map = setting(
        alloc,
        "map",
        "FILE",
        "Write the names that got new ones, with these, to a file as JSON",
    );
    program(alloc)
        .arg(file)?
        .arg(output)?
        .arg(names)?
        .arg(keep)?
        .arg(map)
}

/// The program without its options.
fn program<'a>(alloc: Global) -> Command<'a>
    ensures { app_of result ≡ plain.program }
{
    Command::new(alloc, "wgslmin")
        .no_binary_name(true)
        .version("0.1.0")
        .about("Minifies a WGSL module")
        .after_help(AFTER_HELP)
}

/// An option with one value, which has this name in the text of `--help`.
fn setting<'a>(alloc: Global, name: &'a str, value: &'a str, help: &'a str) -> Arg<'a>
    ensures rule { rule_of result ≡ plain.setting name.entry.now }
    ensures local { result.global ≡ false }
{
    Arg::new(alloc, name)
        .long(name)
        .value_name(value)
        .help(help)
}

/// The names that a value of `--names` chooses: all, if it is not given.
fn which_of(value: Option<&str>) -> Option<Which>
    ensures { option_map which_view result ≡ plain.which_of (option_copied value.entry) }
{
    let Some(value) = value else {
        return Some(Which::All);
    };
    match value {
        "none" => Some(Which::None),
        "locals" => Some(Which::Locals),
        "all" => Some(Which::All),
        _ => None,
    }
}

/// The path that is given, if it is not `-`.
fn path_of(value: Option<&str>) -> Option<&str>
    ensures { option_copied result ≡ plain.path_of (option_copied value.entry) }
{
    match value {
        Some("-") => None,
        _ => value,
    }
}

/// Where a value has a text written: `-` and `/dev/stdout` are the standard output.
fn target_of(value: &str) -> Target<'_>
    ensures { target_view result ≡ plain.target_of value.now }
{
    match value {
        "-" | "/dev/stdout" => Target::Output,
        _ => Target::File(value),
    }
}

/// Where the minified text is written: to the standard output, if no place is given.
fn output_of(value: Option<&str>) -> Target<'_>
    ensures { target_view result ≡ plain.output_of (option_copied value.entry) }
{
    match value {
        Some(value) => target_of(value),
        None => Target::Output,
    }
}

/// Where the new names are written, if a place is given.
fn map_of(value: Option<&str>) -> Option<Target<'_>>
    ensures { option_map target_view result
        ≡ option_map plain.target_of (option_copied value.entry) }
{
    match value {
        Some(value) => Some(target_of(value)),
        None => None,
    }
}

/// Whether the new names are written where the module is, or where its text is written.
fn is_taken(map: Option<Target<'_>>, input: Option<&str>, output: Target<'_>) -> bool
    ensures { result ≡ plain.is_taken (option_map target_view map.entry)
        (option_copied input.entry) (target_view output.entry) }
{
    match map {
        Some(map) => is_target(map, output) || is_source(map, input),
        None => false,
    }
}

/// Whether two places are one.
fn is_target(target: Target<'_>, other: Target<'_>) -> bool
    ensures { result ≡ plain.is_target (target_view target.entry) (target_view other.entry) }
{
    match (target, other) {
        (Target::Output, Target::Output) => true,
        (Target::File(path), Target::File(other)) => path == other,
        (Target::Output, Target::File(_)) | (Target::File(_), Target::Output) => false,
    }
}

/// Whether a place is the file at a path, if there is one.
fn is_source(target: Target<'_>, path: Option<&str>) -> bool
    ensures { result ≡ plain.is_source (target_view target.entry) (option_copied path.entry) }
{
    match path {
        Some(path) => is_target(target, Target::File(path)),
        None => false,
    }
}

/// The names in the lists that are given, if any.
fn kept_names<'a>(alloc: Global, lists: Option<&[&'a str]>) -> Result<Vec<&'a str>, AllocError>
    ensures { IfOk result (λ names. texts names.items ≡ flat_map (slice_split plain.is_comma)
        (unwrap_or (option_map (λ lists. texts lists.now) lists.entry) [])) }
{
    match lists {
        Some(lists) => names_in(alloc, lists),
        None => Ok(Vec::new(alloc)),
    }
}

/// The names in lists, in each of which commas are between them.
fn names_in<'a>(alloc: Global, lists: &[&'a str]) -> Result<Vec<&'a str>, AllocError>
    ensures { IfOk result (λ names. texts names.items
        ≡ flat_map (slice_split plain.is_comma) (texts lists.now)) }
{
    let mut names = Vec::new(alloc);
    'lists: for list in lists {
        let more = parts_of(alloc, list)?;
        names.extend_from_slice(more.as_slice())?;
    }
    Ok(names)
}

/// The parts of a list between its commas.
fn parts_of(alloc: Global, list: &str) -> Result<Vec<&str>, AllocError>
    ensures { IfOk result (λ parts. texts parts.items ≡ slice_split plain.is_comma list.now) }
{
    list.split(',').collect::<Vec<&str>>(alloc)
}
