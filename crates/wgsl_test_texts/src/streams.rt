//! The programs over a reader and writers in memory.

use crate::facts::Facts;
use crate::failing::{Calls, Failure, Sink, Source};
use crate::programs::Call;
use std::alloc::{AllocError, Global};

/// Up to how many bytes a text goes byte by byte through streams of which each call fails in turn.
pub const SHORT: usize = 256;

/// Up to how many bytes a text goes through streams that fail, and has its snippets seen.
pub const LONG: usize = 10_000;

/// In about how many pieces a longer text goes through them.
const PIECES: usize = 4;

/// What a call of a program returned, how often it read and wrote, and what it wrote.
#[derive(Drop)]
struct Answer {
    status: u8,
    reads: usize,
    writes: usize,
    output: Vec<u8>,
    errors: Vec<u8>,
}

impl Answer {
    /// Whether the other one is alike, however often it read and wrote.
    fn is_alike(&self, other: &Answer) -> bool {
        self.status == other.status && self.output == other.output && self.errors == other.errors
    }

    /// Whether a read failed that a number of came before: nothing was tried after it.
    fn is_unread(&self, reads: usize) -> bool {
        self.status == 4 && self.reads == reads.saturating_add(1) && self.writes == 0
    }

    /// Whether a write or flush failed that a number of came before: nothing was tried after it,
    /// and what was written is a beginning of what is due.
    fn is_unwritten(&self, writes: usize, due: &Answer) -> bool {
        self.status == 4
            && self.writes == writes.saturating_add(1)
            && due.output.starts_with(&self.output)
            && due.errors.starts_with(&self.errors)
    }
}

/// A call of a program on a source.
#[derive(Clone, Copy)]
struct Case<'c> {
    call: Call,
    alloc: Global,
    source: &'c [u8],
}

impl Case<'_> {
    /// What it returns with a reader and writers that have these calls.
    fn answer(self, reads: Calls, writes: Calls) -> Answer {
        let mut input = Source::new(self.source, reads);
        let mut output = Sink::new(self.alloc, writes);
        let mut errors = Sink::new(self.alloc, writes);
        let status = self
            .call
            .status(self.alloc, &mut input, &mut output, &mut errors);
        Answer {
            status,
            reads: input.calls.made,
            writes: output.calls.made.saturating_add(errors.calls.made),
            output: output.text,
            errors: errors.text,
        }
    }

    /// Calls of a number of bytes that a text of this length goes in few, or in one a byte if the
    /// source is short.
    fn pieces(self, length: usize) -> Calls {
        if self.source.len() <= SHORT {
            return Calls::new(1);
        }
        Calls::new((length / PIECES).saturating_add(1))
    }

    /// Whether a read that fails ends it, each in turn.
    fn ends_at_reads(self) -> bool {
        let calls = self.pieces(self.source.len());
        for call in 0..self.answer(calls, Calls::whole()).reads {
            let failing = calls.failing(call, Failure::Error);
            if !self.answer(failing, Calls::whole()).is_unread(call) {
                return false;
            }
        }
        true
    }

    /// Whether a write or flush that fails ends it, and a write that takes no bytes, each in turn.
    fn ends_at_writes(self, due: &Answer) -> bool {
        let calls = self.pieces(due.output.len().max(due.errors.len()));
        let writes = self.answer(Calls::whole(), calls).writes;
        for call in 0..writes {
            let failing = calls.failing(call, Failure::Error);
            if !self.answer(Calls::whole(), failing).is_unwritten(call, due) {
                return false;
            }
        }
        // the last call is the flush
        for call in 0..writes.saturating_sub(1) {
            let failing = calls.failing(call, Failure::NoRoom);
            if !self.answer(Calls::whole(), failing).is_unwritten(call, due) {
                return false;
            }
        }
        true
    }

    /// Checks it with streams that take a byte at a time, and with streams of which each call
    /// fails in turn.
    fn check(self, due: &Answer, facts: &mut Facts<'_>) -> Result<(), AllocError> {
        let is_same = self.answer(Calls::new(1), Calls::new(1)).is_alike(due);
        facts.expect(is_same, "streams of a byte a call change nothing")?;
        facts.expect(self.ends_at_reads(), "a read that fails ends it")?;
        facts.expect(
            self.ends_at_writes(due),
            "a write or flush that fails ends it",
        )
    }
}

/// Sees what a program returns and writes by a call, and its streams unless the text is long.
pub fn see_call(call: Call, source: &[u8], facts: &mut Facts<'_>) -> Result<(), AllocError> {
    let alloc = facts.alloc;
    let case = Case {
        call,
        alloc,
        source,
    };
    let due = case.answer(Calls::whole(), Calls::whole());
    if source.len() <= LONG {
        see_streams(case, &due, facts)?;
    }
    facts.answer("status", &due.status)?;
    see_written("output", &due.output, facts)?;
    see_written("errors", &due.errors, facts)
}

/// Sees the streams of a call, and those of `run` where that does the same.
fn see_streams(case: Case<'_>, due: &Answer, facts: &mut Facts<'_>) -> Result<(), AllocError> {
    case.check(due, facts)?;
    let Some(call) = case.call.run() else {
        return Ok(());
    };
    let case = Case { call, ..case };
    let is_alike = case.answer(Calls::whole(), Calls::whole()).is_alike(due);
    facts.expect(is_alike, "`run` and `start` return alike")?;
    case.check(due, facts)
}

/// Whether a program returns a status for a text and writes these texts.
pub fn writes(
    alloc: Global,
    call: Call,
    source: &[u8],
    status: u8,
    output: &str,
    errors: &str,
) -> bool {
    let case = Case {
        call,
        alloc,
        source,
    };
    let answer = case.answer(Calls::whole(), Calls::whole());
    answer.status == status
        && answer.output.as_slice() == output.as_bytes()
        && answer.errors.as_slice() == errors.as_bytes()
}

/// What was written, unless that is nothing.
fn see_written(words: &str, written: &[u8], facts: &mut Facts<'_>) -> Result<(), AllocError> {
    if written.is_empty() {
        return Ok(());
    }
    facts.answer(words, &String::from_utf8_lossy(facts.alloc, written)?)
}
