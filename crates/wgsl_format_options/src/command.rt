//! The options of the program, for `clap`.

ghost use Rattle.std.specs.Prelude.{◌≡◌, false, IfOk};
ghost use Rattle.clap.specs.Words.{app_of, rule_of};
ghost use Rattle.wgsl_format_options.specs.Command as plain;

use clap::{Arg, ArgAction, Command};
use std::alloc::{AllocError, Global};

/// The text of `--help` above the options.
const ABOUT: &str = "\
Formats WGSL modules. Each file is formatted in place, and in each folder all files whose names end
with .wgsl. The standard input is formatted to the standard output.";

/// The end of the text of `--help`.
const AFTER_HELP: &str = "\
What no option chooses, the nearest .editorconfig file chooses.

Status: 0 success, 1 a file would change, 2 wrong arguments, 3 a file has an error or is not UTF-8,
4 a file could not be read or written, 5 out of memory.";

/// Returns the program's options and its version.
pub fn command<'a>(alloc: Global) -> Result<Command<'a>, AllocError>
    ensures { IfOk result (λ command. app_of command ≡ plain.command) }
{
    let check = flag(
        alloc,
        "check",
        "Write no file, and list the files that would change",
    );
    let diff = flag(
        alloc,
        "diff",
        "Write no file, and show what would change as a unified diff",
    );
    let quiet = flag(alloc, "quiet", "Print no summary");
    let stdin_path = setting(
        alloc,
        "stdin-path",
        "NAME",
        "The name of the standard input in messages, and for .editorconfig files",
    );
    let width = setting(
        alloc,
        "width",
        "N",
        "Break lines of more than N columns, with 0 none [default: 100]",
    );
    let indent = setting(
        alloc,
        "indent",
        "N|tab",
        "Indent by N spaces a level, or by a tab [default: 4]",
    );
    let newlines = setting(
        alloc,
        "newlines",
        "KIND",
        "End lines with lf, crlf, or as the first one of the text [default: auto]",
    );
    program(alloc)
        .arg(paths(alloc))?
        .arg(check)?
        .arg(diff)?
        .arg(quiet)?
        .arg(stdin_path)?
        .arg(width)?
        .arg(indent)?
        .arg(newlines)
}

/// The program without its options.
fn program<'a>(alloc: Global) -> Command<'a>
    ensures { app_of result ≡ plain.program }
{
    Command::new(alloc, "wgsltidy")
        .no_binary_name(true)
        .args_override_self(true)
        .version("0.1.0")
        .about(ABOUT)
        .after_help(AFTER_HELP)
}

/// The files and folders.
fn paths<'a>(alloc: Global) -> Arg<'a>
    ensures rule { rule_of result ≡ plain.paths }
    ensures local { result.global ≡ false }
{
    Arg::new(alloc, "PATH")
        .action(ArgAction::Append)
        .default_value("-")
        .help("Files and folders; - is the standard input")
}

/// An option without a value.
fn flag<'a>(alloc: Global, name: &'a str, help: &'a str) -> Arg<'a>
    ensures rule { rule_of result ≡ plain.flag name.entry.now }
    ensures local { result.global ≡ false }
{
    Arg::new(alloc, name)
        .long(name)
        .action(ArgAction::SetTrue)
        .help(help)
}

/// An option with one value, which has this name in the text of `--help`.
fn setting<'a>(alloc: Global, name: &'a str, value: &'a str, help: &'a str) -> Arg<'a>
    ensures rule { rule_of result ≡ plain.setting name.entry.now }
    ensures local { result.global ≡ false }
{
    Arg::new(alloc, name)
        .long(name)
        .value_name(value)
        .help(help)
}
