//! Messages with their lengths before them.

ghost use Rattle.std.specs.Prelude.{◌≡◌, IfOk, OnOk};
ghost use Rattle.std.specs.Io.KnownBytes.{Appends};
ghost use Rattle.wgsl_server_protocol.specs.Frames.{frame};

use std::alloc::{AllocError, Global};
use std::io;
use std::io::Write;

/// Returns a message with its length before it.
pub fn framed(alloc: Global, body: &[u8]) -> Result<Vec<u8>, AllocError>
    ensures { IfOk result (λ all. all.items ≡ frame body.now) }
{
    let length = body.len();
    let header = format!(in alloc; "Content-Length: {length}\r\n\r\n")?;
    let mut all = Vec::from_slice(alloc, header.as_str().as_bytes())?;
    all.extend_from_slice(body)?;
    Ok(all)
}

/// Writes a message with its length before it.
pub fn send<W: Write>(alloc: Global, output: &mut W, body: &[u8]) -> io::Result<()>
    ensures { OnOk result (Appends (W.contents output.old) (W.contents output.new) (frame body.now)) }
{
    let all = framed(alloc, body)?;
    output.write_all(all.as_slice())?;
    output.flush()
}
