//! What is at the front of the bytes that came.

ghost use Rattle.std.specs.Prelude.{◌≡◌, ◌≤◌, true, length};
ghost use Rattle.std.specs.Str.{IsUtf8};
ghost use Rattle.wgsl_server_protocol.specs.Fronts as plain;

use crate::head::{head_end, length_in};

/// How many bytes the fields have at most.
const LONGEST_HEAD: usize = 4096;

/// What is at the front of the bytes that came.
#[derive(Clone, Copy, Debug, PartialEq, Eq)]
pub enum Front {
    /// Less than a message.
    Partial,
    /// A message, from here to there.
    Whole(usize, usize),
    /// Fields up to here, which give no length.
    Malformed(usize),
    /// A message from here on with more bytes than may come: this many.
    TooLarge(usize, usize),
}

impl Front {
    /// Returns what is at the front of bytes, where a message has at most so many.
    pub fn of(bytes: &[u8], most: usize) -> Front
        ensures front { result ≡ plain.front_of most bytes.now }
        ensures within { plain.IsWithin result (length bytes.now) }
    {
        match head_end(bytes) {
            Some(start) => {
                let (head, _) = bytes.split_at(start);
                front_after(bytes, start, length_at(head), most)
            }
            None if bytes.len() > LONGEST_HEAD => Front::Malformed(bytes.len()),
            None => Front::Partial,
        }
    }
}

/// Returns what is at the front of bytes whose fields end here and give this length.
fn front_after(bytes: &[u8], start: usize, given: Option<usize>, most: usize) -> Front
    requires { start ≤ length bytes.now }
    ensures front { result ≡ plain.front_after most bytes.now start given }
    ensures within { plain.IsWithin result (length bytes.now) }
{
    match given {
        Some(size) if size > most => Front::TooLarge(start, size),
        Some(size) if size > bytes.len() - start => Front::Partial,
        Some(size) => Front::Whole(start, start + size),
        None => Front::Malformed(start),
    }
}

/// Returns the length that fields give, which are in ASCII.
fn length_at(head: &[u8]) -> Option<usize>
    ensures { result ≡ plain.length_at head.now }
{
    if !is_ascii(head) {
        return None;
    }
    match std::str::from_utf8(head) {
        Ok(head) => length_in(head),
        Err(_) => None,
    }
}

/// Returns whether each byte is ASCII.
fn is_ascii(bytes: &[u8]) -> bool
    ensures ascii { result ≡ plain.all_ascii bytes.now }
    ensures text { result ≡ true → IsUtf8 bytes.now }
{
    bytes.is_ascii()
}
