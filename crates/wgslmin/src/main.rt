//! Minifies a WGSL module.
#![tactic(auto)]

use std::io::ErrorKind;
use std::process::ExitCode;
use wgsl_files::HostStore;
use wgsl_minify_files::{HostOutputs, refuse_argument, refuse_memory, start};

fn main(rt: HostRuntime) -> ExitCode {
    let alloc = rt.alloc();
    let arguments = match std::env::args(&rt) {
        Ok(arguments) => arguments.skip(1).collect::<Vec<String>>(alloc),
        Err(error) if error.kind() == ErrorKind::OutOfMemory => {
            return ExitCode::from(refuse_memory(&mut rt.stderr()));
        }
        Err(_) => return ExitCode::from(refuse_argument(&mut rt.stderr())),
    };
    let Ok(arguments) = arguments else {
        return ExitCode::from(refuse_memory(&mut rt.stderr()));
    };
    ExitCode::from(start(
        alloc,
        arguments.as_slice(),
        &mut HostOutputs {
            files: HostStore { rt: &rt },
        },
        &mut rt.stdin(),
        &mut rt.stdout(),
        &mut rt.stderr(),
    ))
}
