//! Reads WGSL on the standard input, and prints its canonical text on the standard output.
#![tactic(auto)]

use std::io::ErrorKind;
use std::process::ExitCode;
use wgsl_format::{Printer, refuse_memory, start_with};

/// How many levels deep a module may nest: a level takes at most 2,700 bytes of a stack of 8 MB, of
/// which a third is spare.
const DEPTH: usize = 2_000;

fn main(rt: HostRuntime) -> ExitCode {
    let arguments = match std::env::args(&rt) {
        Ok(arguments) => arguments.skip(1).count(),
        Err(error) if error.kind() == ErrorKind::OutOfMemory => {
            return ExitCode::from(refuse_memory(&mut rt.stderr()));
        }
        // One that is not UTF-8 is an argument all the same.
        Err(_) => 1,
    };
    ExitCode::from(start_with(
        rt.alloc(),
        &Printer {
            depth: Some(DEPTH),
            ends: true,
        },
        arguments,
        &mut rt.stdin(),
        &mut rt.stdout(),
        &mut rt.stderr(),
    ))
}
