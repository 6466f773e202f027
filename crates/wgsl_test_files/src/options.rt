//! What arguments ask for.

use clap::error::ErrorKind;
use std::alloc::{AllocError, Global};
use std::test::Fail;
use wgsl_choices::{Choices, IndentSize, IndentStyle, Newlines};
use wgsl_format_options::{Mode, Source, read_options};

/// The words of a text, as arguments.
fn words(alloc: Global, text: &str) -> Result<Vec<String>, AllocError> {
    let mut found = Vec::new(alloc);
    for word in text.split_whitespace() {
        found.push(String::from_str(alloc, word)?)?;
    }
    Ok(found)
}

#[test]
fn reads_options_and_files(rt: HostRuntime) -> Result<(), Fail> {
    let arguments = words(
        rt.alloc(),
        "b.wgsl --check - --stdin-path=a.wgsl -- --quiet",
    )?;
    let Ok(options) = read_options(rt.alloc(), &arguments) else {
        return Err(Fail::from("no files"));
    };
    assert!(rt; options.mode == Mode::Check);
    assert!(rt; !options.quiet);
    assert!(rt; options.stdin_path == Some("a.wgsl"));
    assert!(rt; options.choices == Choices::none());
    assert_eq!(rt; options.sources.len(), 3);
    assert!(rt; options.sources[0] == Source::Path("b.wgsl"));
    assert!(rt; options.sources[1] == Source::StandardInput);
    assert!(rt; options.sources[2] == Source::Path("--quiet"));
    Ok(())
}

#[test]
fn reads_no_arguments(rt: HostRuntime) -> Result<(), Fail> {
    let Ok(options) = read_options(rt.alloc(), &[]) else {
        return Err(Fail::from("no files"));
    };
    assert!(rt; options.mode == Mode::Write);
    assert!(rt; options.sources.as_slice() == [Source::StandardInput].as_slice());
    Ok(())
}

#[test]
fn shows_what_is_also_to_be_checked(rt: HostRuntime) -> Result<(), Fail> {
    let arguments = words(rt.alloc(), "--diff --check --quiet")?;
    let Ok(options) = read_options(rt.alloc(), &arguments) else {
        return Err(Fail::from("no files"));
    };
    assert!(rt; options.mode == Mode::Diff && options.quiet);
    Ok(())
}

#[test]
fn reads_choices(rt: HostRuntime) -> Result<(), Fail> {
    let none = Choices::none();
    let spaces = Some(IndentStyle::Spaces);
    let tab = Some(IndentStyle::Tab);
    for (text, choices) in [
        (
            "--width 0",
            Choices {
                width: Some(0),
                ..none
            },
        ),
        (
            "--width=9999",
            Choices {
                width: Some(9999),
                ..none
            },
        ),
        (
            "--width=80 --width 0120",
            Choices {
                width: Some(120),
                ..none
            },
        ),
        (
            "--indent 1",
            Choices {
                style: spaces,
                size: Some(IndentSize::Columns(1)),
                ..none
            },
        ),
        (
            "--indent=tab --indent=16",
            Choices {
                style: spaces,
                size: Some(IndentSize::Columns(16)),
                ..none
            },
        ),
        (
            "--indent=2 --indent tab",
            Choices {
                style: tab,
                size: Some(IndentSize::Tab),
                ..none
            },
        ),
        (
            "--newlines auto",
            Choices {
                newlines: Some(Newlines::Auto),
                ..none
            },
        ),
        (
            "--newlines=lf",
            Choices {
                newlines: Some(Newlines::Lf),
                ..none
            },
        ),
        (
            "--newlines=crlf",
            Choices {
                newlines: Some(Newlines::CrLf),
                ..none
            },
        ),
    ] {
        let arguments = words(rt.alloc(), text)?;
        let Ok(options) = read_options(rt.alloc(), &arguments) else {
            return Err(Fail::from(text));
        };
        assert!(rt; options.choices == choices, "of {text}");
    }
    Ok(())
}

#[test]
fn says_what_kind_of_error_there_is(rt: HostRuntime) -> Result<(), Fail> {
    for (text, kind) in [
        ("--chekc", ErrorKind::UnknownArgument),
        ("-x", ErrorKind::UnknownArgument),
        ("a --stdin-path", ErrorKind::InvalidValue),
        ("--stdin-path --check", ErrorKind::InvalidValue),
        ("--width 10000", ErrorKind::InvalidValue),
        ("--width=-1 a", ErrorKind::InvalidValue),
        ("--width=", ErrorKind::InvalidValue),
        ("--width -1", ErrorKind::UnknownArgument),
        ("--indent=0", ErrorKind::InvalidValue),
        ("--indent=17", ErrorKind::InvalidValue),
        ("--indent=tabs --width=80", ErrorKind::InvalidValue),
        ("--newlines cr", ErrorKind::InvalidValue),
        ("--newlines", ErrorKind::InvalidValue),
        ("--quiet=1", ErrorKind::TooManyValues),
        ("a -h", ErrorKind::DisplayHelp),
        ("--version --help", ErrorKind::DisplayVersion),
    ] {
        let arguments = words(rt.alloc(), text)?;
        match read_options(rt.alloc(), &arguments) {
            Err(error) => assert!(rt; error.kind() == kind, "of {text}"),
            Ok(_) => return Err(Fail::from(text)),
        }
    }
    Ok(())
}
