//! Readers and writers that take their time or fail.

use std::alloc::Global;
use std::io;
use std::io::{ErrorKind, Read, Write};
use std::process::Abort;
use wgsl_format::{refuse_memory, start};

/// A reader that gives a byte a call, and then ends or fails.
#[derive(Drop)]
struct Slow<'s> {
    bytes: &'s [u8],
    fault: Option<ErrorKind>,
}

impl Read for Slow<'_> {
    fn read(&mut self, buffer: &mut [u8]) -> io::Result<usize> {
        let Some((first, rest)) = self.bytes.split_first() else {
            return match self.fault {
                Some(kind) => Err(io::Error::from(kind)),
                None => Ok(0),
            };
        };
        let Some(place) = buffer.first_mut() else {
            return Ok(0);
        };
        *place = *first;
        self.bytes = rest;
        Ok(1)
    }
}

/// How a writer fails once it took all the calls that it takes.
#[derive(Clone, Copy, Debug, PartialEq, Eq)]
enum Fault {
    Write,
    NoRoom,
    Flush,
}

/// A writer that takes a few bytes a call, and then fails.
#[derive(Drop)]
struct Narrow {
    taken: Vec<u8>,
    bytes_a_call: usize,
    calls_left: usize,
    fault: Option<Fault>,
    faults: u8,
    flushes: u8,
}

impl Narrow {
    fn new(alloc: Global, bytes_a_call: usize, calls: usize, fault: Option<Fault>) -> Narrow {
        Narrow {
            taken: Vec::new(alloc),
            bytes_a_call,
            calls_left: calls,
            fault,
            faults: 0,
            flushes: 0,
        }
    }

    /// It holds the front of the text of this length, and nothing was tried after the first fault.
    fn check(&self, rt: &impl Abort, text: &str, length: usize) {
        let case = (text, self.bytes_a_call, self.fault);
        assert_eq!(rt; self.taken.len(), length, "taken: {case:?}");
        assert!(rt; text.as_bytes().starts_with(&self.taken), "taken: {case:?}");
        let (faults, flushes) = match self.fault {
            None => (0, 1),
            Some(Fault::Flush) => (1, 1),
            Some(_) => (1, 0),
        };
        assert_eq!(rt; self.faults, faults, "faults: {case:?}");
        assert_eq!(rt; self.flushes, flushes, "flushes: {case:?}");
    }
}

impl Write for Narrow {
    fn write(&mut self, buffer: &[u8]) -> io::Result<usize> {
        let Some(calls) = self.calls_left.checked_sub(1) else {
            self.faults = self.faults.saturating_add(1);
            if self.fault == Some(Fault::NoRoom) {
                return Ok(0);
            }
            return Err(io::Error::from(ErrorKind::Interrupted));
        };
        self.calls_left = calls;
        let count = buffer.len().min(self.bytes_a_call);
        self.taken.extend_from_slice(&buffer[..count])?;
        Ok(count)
    }

    fn flush(&mut self) -> io::Result<()> {
        self.flushes = self.flushes.saturating_add(1);
        if self.fault == Some(Fault::Flush) {
            self.faults = self.faults.saturating_add(1);
            return Err(io::Error::from(ErrorKind::Interrupted));
        }
        Ok(())
    }
}

#[test]
fn slow_reads(rt: HostRuntime) {
    for (source, fault, status, text) in [
        ("alias A=B;", None, 0, "alias A = B;\n"),
        ("", Some(ErrorKind::Other), 4, ""),
        ("alias A=B;", Some(ErrorKind::Interrupted), 4, ""),
        ("#", Some(ErrorKind::OutOfMemory), 4, ""),
    ] {
        let mut input = Slow {
            bytes: source.as_bytes(),
            fault,
        };
        let mut output: Vec<u8> = Vec::new(rt.alloc());
        let mut errors: Vec<u8> = Vec::new(rt.alloc());
        let answer = start(rt.alloc(), 0, &mut input, &mut output, &mut errors);
        assert_eq!(rt; answer, status, "the status: {source:?}");
        assert_eq!(rt;
            output.as_slice(),
            text.as_bytes(),
            "the output: {source:?}"
        );
        assert!(rt; errors.is_empty(), "the errors: {source:?}");
    }
}

#[test]
fn narrow_writes(rt: HostRuntime) {
    for (arguments, source, status, text) in [
        (0, "alias A=B;", 0, "alias A = B;\n"),
        (0, "const x = 1 #;", 1, "chars 12..13: invalid token\n"),
        (1, "", 5, "wgslfmt takes no arguments\n"),
    ] {
        for (bytes_a_call, calls, fault, taken) in [
            (1, 100, None, text.len()),
            (1, 0, Some(Fault::Write), 0),
            (5, 1, Some(Fault::Write), 5),
            (1, 0, Some(Fault::NoRoom), 0),
            (1, 5, Some(Fault::NoRoom), 5),
            (1, 100, Some(Fault::Flush), text.len()),
            (100, 1, Some(Fault::Flush), text.len()),
        ] {
            let mut narrow = Narrow::new(rt.alloc(), bytes_a_call, calls, fault);
            let mut other = Vec::new(rt.alloc());
            let mut input = source.as_bytes();
            let answer = if status == 0 {
                start(rt.alloc(), arguments, &mut input, &mut narrow, &mut other)
            } else {
                start(rt.alloc(), arguments, &mut input, &mut other, &mut narrow)
            };
            let wanted = if fault.is_none() { status } else { 4 };
            assert_eq!(rt; answer, wanted, "the status: {text:?}");
            assert!(rt; other.is_empty(), "the other writer: {text:?}");
            narrow.check(&rt, text, taken);
        }
    }
}

#[test]
fn no_memory(rt: HostRuntime) {
    let mut errors = Vec::new(rt.alloc());
    assert_eq!(rt; refuse_memory(&mut errors), 3);
    assert_eq!(rt; errors.as_slice(), b"out of memory\n".as_slice());
}
