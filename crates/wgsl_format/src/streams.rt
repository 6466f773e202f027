//! All that a reader gives, and a text to a writer.

ghost use Rattle.std.specs.Prelude.{◌≡◌, ℕ, List, take, IfOk, OnOk};
ghost use Rattle.std.specs.Io.KnownBytes.{Appends, IsAtEnd};
ghost use Rattle.wgsl_model.specs.Program.{ProcessOutput, out_of_memory};
ghost use Rattle.wgsl_format.specs.Ends.{IsInput, GoesOut};
ghost use Rattle.wgsl_format.specs.Told.{IsTold};

use std::alloc::Global;
use std::io;
use std::io::{ErrorKind, Read, Write};

/// The status where a read, a write or a flush failed.
pub(crate) const FAILED: u8 = 4;

/// The reason why the input could not be read.
#[derive(Clone, Copy, Debug, PartialEq, Eq)]
pub enum ReadError {
    OutOfMemory,
    Failed,
}

/// Reads all that the reader gives. A read that fails is not tried again.
pub fn read_all<R: Read>(alloc: Global, input: &mut R) -> Result<Vec<u8>, ReadError>
    ensures bytes { IfOk result (λ all. IsInput (R.remaining input.old) all.items) }
    ensures end { OnOk result (IsAtEnd (R.remaining input.new)) }
{
    let mut bytes = Vec::new(alloc);
    let mut buffer = [0u8; 8192];
    for _ in 0..u64::MAX {
        let Ok(count) = input.read(&mut buffer) else {
            return Err(ReadError::Failed);
        };
        if count == 0 {
            return Ok(bytes);
        }
        if bytes.extend_from_slice(&buffer[..count]).is_err() {
            return Err(ReadError::OutOfMemory);
        }
    }
    Err(ReadError::OutOfMemory)
}

/// Writes the text and flushes the writer. A write that fails is not tried again.
pub fn send<W: Write>(writer: &mut W, text: &[u8]) -> io::Result<()>
    ensures all { OnOk result (Appends (W.contents writer.old) (W.contents writer.new) text.now) }
    ensures some { (n : ℕ) ×
        Appends (W.contents writer.old) (W.contents writer.new) (take n text.now) }
{
    let mut sent = 0;
    while sent < text.len() {
        let count = writer.write(&text[sent..])?;
        if count == 0 {
            return Err(io::Error::from(ErrorKind::WriteZero));
        }
        sent += count;
    }
    writer.flush()
}

/// Sends the text and returns the status, or `FAILED`.
pub(crate) fn tell<W: Write>(writer: &mut W, text: &[u8], status: u8) -> u8
    ensures { (sent : List ℕ) × IsTold text.now status sent result
        × Appends (W.contents writer.old) (W.contents writer.new) sent }
{
    match send(writer, text) {
        Ok(()) => status,
        Err(_) => FAILED,
    }
}

/// Reports that an allocation failed: status 3, or 4 where the line could not be written.
pub fn refuse_memory<E: Write>(errors: &mut E) -> u8
    ensures { (end : ProcessOutput) × GoesOut out_of_memory end × (result ≡ end.status)
        × Appends (E.contents errors.old) (E.contents errors.new) end.errors }
{
    tell(errors, b"out of memory\n", 3)
}
