//! The calls of `wgslfmt`.

use std::alloc::Global;
use std::io::{Read, Write};
use wgsl_format::{Printer, run, start, start_with};

/// A call of the program: a run, `start` with a number of arguments, or a start with a number of
/// levels that a module may nest.
#[derive(Clone, Copy)]
pub enum Call {
    Run,
    Start(usize),
    Within(usize),
}

impl Call {
    /// Returns the call that a row names, with a number of arguments or levels.
    pub fn named(name: &str, number: usize) -> Option<Call> {
        match name {
            "wgslfmt" => Some(Call::Start(number)),
            "wgslfmt_within" => Some(Call::Within(number)),
            _ => None,
        }
    }

    /// Returns the call `run` that does the same as `start`, if there is one.
    pub fn run(self) -> Option<Call> {
        match self {
            Call::Start(0) => Some(Call::Run),
            _ => None,
        }
    }

    /// Makes the call, and returns the status.
    pub fn status<R: Read, W: Write, E: Write>(
        self,
        alloc: Global,
        input: &mut R,
        output: &mut W,
        errors: &mut E,
    ) -> u8 {
        match self {
            Call::Run => run(alloc, input, output, errors),
            Call::Start(arguments) => start(alloc, arguments, input, output, errors),
            Call::Within(depth) => {
                let printer = Printer {
                    depth: Some(depth),
                    ends: false,
                };
                start_with(alloc, &printer, 0, input, output, errors)
            }
        }
    }
}
