//! Readers and writers in memory that give or take little at a call, and fail at one.

use std::alloc::Global;
use std::io;
use std::io::{ErrorKind, Read, Write};

/// The way in which a call fails.
#[derive(Clone, Copy, PartialEq, Eq)]
pub enum Failure {
    /// By an error of the kind `Other`.
    Error,
    /// A write takes no bytes.
    NoRoom,
}

/// The calls of a stream.
#[derive(Clone, Copy)]
pub struct Calls {
    pub made: usize,
    /// How many bytes go at a call at most.
    bytes: usize,
    /// Which call fails, counted from 0, and how.
    fault: Option<(usize, Failure)>,
}

impl Calls {
    /// Returns calls that do not fail.
    pub fn new(bytes: usize) -> Calls {
        Calls {
            made: 0,
            bytes,
            fault: None,
        }
    }

    /// Returns calls that do not fail, at which all bytes go.
    pub fn whole() -> Calls {
        Calls::new(usize::MAX)
    }

    /// Returns the same calls, of which one fails.
    pub fn failing(self, call: usize, failure: Failure) -> Calls {
        Calls {
            fault: Some((call, failure)),
            ..self
        }
    }

    /// Counts a call, and returns how it fails if it does.
    fn count(&mut self) -> Option<Failure> {
        let call = self.made;
        self.made = call.saturating_add(1);
        match self.fault {
            Some((failing, failure)) if failing == call => Some(failure),
            _ => None,
        }
    }
}

/// A reader that gives a text.
#[derive(Drop)]
pub struct Source<'s> {
    pub calls: Calls,
    left: &'s [u8],
}

impl<'s> Source<'s> {
    /// Returns a reader that gives a text by these calls.
    pub fn new(text: &'s [u8], calls: Calls) -> Source<'s> {
        Source { calls, left: text }
    }
}

impl Read for Source<'_> {
    fn read(&mut self, buffer: &mut [u8]) -> io::Result<usize> {
        if self.calls.count().is_some() {
            return Err(io::Error::from(ErrorKind::Other));
        }
        let count = self.calls.bytes.min(buffer.len()).min(self.left.len());
        let (given, left) = self.left.split_at(count);
        buffer[..count].copy_from_slice(given);
        self.left = left;
        Ok(count)
    }
}

/// A writer that takes a text.
#[derive(Drop)]
pub struct Sink {
    pub calls: Calls,
    pub text: Vec<u8>,
}

impl Sink {
    /// Returns a writer that takes a text by these calls.
    pub fn new(alloc: Global, calls: Calls) -> Sink {
        Sink {
            calls,
            text: Vec::new(alloc),
        }
    }
}

impl Write for Sink {
    fn write(&mut self, buffer: &[u8]) -> io::Result<usize> {
        match self.calls.count() {
            Some(Failure::Error) => return Err(io::Error::from(ErrorKind::Other)),
            Some(Failure::NoRoom) => return Ok(0),
            None => {}
        }
        let count = self.calls.bytes.min(buffer.len());
        self.text.extend_from_slice(&buffer[..count])?;
        Ok(count)
    }

    fn flush(&mut self) -> io::Result<()> {
        match self.calls.count() {
            Some(_) => Err(io::Error::from(ErrorKind::Other)),
            None => Ok(()),
        }
    }
}
