//! A stream that comes in pieces, read message by message.

ghost use Rattle.std.specs.Prelude.{◌≡◌, ◌≤◌, IfOk, OnOk, OnErr, [], length, drop};
ghost use Rattle.std.specs.Option.{option_map};
ghost use Rattle.wgsl_server_protocol.specs.Fronts.{front_of};
ghost use Rattle.wgsl_server_protocol.specs.Reading as plain;

use crate::front::Front;
use std::alloc::{AllocError, Global};
use std::marker::Model;

/// The bytes of a stream that came and are not read yet.
#[derive(Drop)]
pub struct FrameReader {
    bytes: Vec<u8>,
    /// How many bytes to come are those of a message that is left out.
    skipped: usize,
}

impl Model for FrameReader {
    ghost Value = { plain.Pending };

    ghost view = { λ reader. record { bytes = reader.bytes.items; skipped = reader.skipped } };
}

/// What is read of a stream.
#[derive(Drop)]
pub enum Frame {
    /// A message.
    Message(Vec<u8>),
    /// Fields that give no length. They are left out.
    Malformed,
    /// A message with more bytes than may come. It is left out.
    TooLarge,
}

impl FrameReader {
    /// Creates a reader of a stream of which nothing came.
    pub fn new(alloc: Global) -> FrameReader
        ensures { result ≡ record { bytes = []; skipped = 0 } }
    {
        FrameReader {
            bytes: Vec::new(alloc),
            skipped: 0,
        }
    }

    /// Takes the next piece of the stream. An `Err` changes nothing.
    pub fn feed(&mut self, piece: &[u8]) -> Result<(), AllocError>
        ensures ok { OnOk result (self.new ≡ plain.fed self.old piece.now) }
        ensures err { OnErr result (self.new ≡ self.old) }
    {
        let skipped = self.skipped.min(piece.len());
        let (_, rest) = piece.split_at(skipped);
        self.bytes.extend_from_slice(rest)?;
        self.skipped -= skipped;
        Ok(())
    }

    /// Reads what is at the front, if it came whole, where a message has at most so many bytes. An
    /// `Err` changes nothing.
    pub fn read(&mut self, alloc: Global, most: usize) -> Result<Option<Frame>, AllocError>
        ensures found { IfOk result (λ frame. option_map plain.frame_view frame ≡ plain.found self.old.bytes (front_of most self.old.bytes)) }
        ensures after { OnOk result (self.new ≡ plain.after self.old (front_of most self.old.bytes)) }
        ensures err { OnErr result (self.new ≡ self.old) }
    {
        let bytes = self.bytes.as_slice();
        match Front::of(bytes, most) {
            Front::Partial => Ok(None),
            Front::Whole(start, end) => {
                let message = Vec::from_slice(alloc, &bytes[start..end])?;
                self.bytes = rest_from(alloc, bytes, end)?;
                Ok(Some(Frame::Message(message)))
            }
            Front::Malformed(end) => {
                self.bytes = rest_from(alloc, bytes, end)?;
                Ok(Some(Frame::Malformed))
            }
            Front::TooLarge(start, size) => {
                let passed = size.min(bytes.len() - start);
                self.bytes = rest_from(alloc, bytes, start + passed)?;
                self.skipped = size - passed;
                Ok(Some(Frame::TooLarge))
            }
        }
    }
}

/// Returns the bytes from a place on.
fn rest_from(alloc: Global, bytes: &[u8], from: usize) -> Result<Vec<u8>, AllocError>
    requires { from ≤ length bytes.now }
    ensures { IfOk result (λ rest. rest.items ≡ drop from bytes.now) }
{
    let (_, rest) = bytes.split_at(from);
    Vec::from_slice(alloc, rest)
}
