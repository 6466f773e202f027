//! What options choose of the layout.

ghost use Rattle.std.specs.Prelude.{◌≡◌};
ghost use Rattle.std.specs.Option.{option_copied};
ghost use Rattle.std.specs.Result.{result_ok};
ghost use Rattle.wgsl_format_options.specs.Chosen as plain;

use wgsl_choices::{Choices, IndentSize, IndentStyle, Newlines, read_size, read_width};

/// What is wrong with another value of `--width`.
const WRONG_WIDTH: &str = "option '--width' takes a number from 0 to 9999";

/// What is wrong with another value of `--indent`.
const WRONG_INDENT: &str = "option '--indent' takes a number from 1 to 16, or tab";

/// What is wrong with another value of `--newlines`.
const WRONG_NEWLINES: &str = "option '--newlines' takes auto, lf or crlf";

/// Returns what the values of these options choose, if they are given; an `Err` says what is wrong
/// with a value.
pub fn choices_of(
    width: Option<&str>,
    indent: Option<&str>,
    newlines: Option<&str>,
) -> Result<Choices, &'static str>
    ensures { result_ok result ≡ plain.choices_of (option_copied width.entry)
        (option_copied indent.entry) (option_copied newlines.entry) }
{
    let chosen = with_width(Choices::none(), width).ok_or(WRONG_WIDTH)?;
    let chosen = with_indent(chosen, indent).ok_or(WRONG_INDENT)?;
    with_newlines(chosen, newlines).ok_or(WRONG_NEWLINES)
}

/// These choices with the width that a value gives, if it gives one.
fn with_width(choices: Choices, value: Option<&str>) -> Option<Choices>
    ensures { result ≡ plain.with_width choices (option_copied value.entry) }
{
    let Some(value) = value else {
        return Some(choices);
    };
    let width = read_width(value)?;
    Some(Choices {
        width: Some(width),
        ..choices
    })
}

/// These choices with the indentation that a value gives, if it gives one.
fn with_indent(choices: Choices, value: Option<&str>) -> Option<Choices>
    ensures { result ≡ plain.with_indent choices (option_copied value.entry) }
{
    let Some(value) = value else {
        return Some(choices);
    };
    if value == "tab" {
        return Some(Choices {
            style: Some(IndentStyle::Tab),
            size: Some(IndentSize::Tab),
            ..choices
        });
    }
    let columns = read_size(value)?;
    Some(Choices {
        style: Some(IndentStyle::Spaces),
        size: Some(IndentSize::Columns(columns)),
        ..choices
    })
}

/// These choices with the ends of lines that a value gives, if it gives them.
fn with_newlines(choices: Choices, value: Option<&str>) -> Option<Choices>
    ensures { result ≡ plain.with_newlines choices (option_copied value.entry) }
{
    let Some(value) = value else {
        return Some(choices);
    };
    let newlines = newlines_of(value)?;
    Some(Choices {
        newlines: Some(newlines),
        ..choices
    })
}

/// The ends of lines that a value gives.
fn newlines_of(value: &str) -> Option<Newlines>
    ensures { result ≡ plain.newlines_of value.now }
{
    match value {
        "auto" => Some(Newlines::Auto),
        "lf" => Some(Newlines::Lf),
        "crlf" => Some(Newlines::CrLf),
        _ => None,
    }
}
