//! What a call returns: a status, and the rest in memory of the caller.

ghost use Rattle.std.specs.Prelude.{◌≡◌, ◌⊎◌, ◌<◌, false, true, length, take, MatchOption};
ghost use Rattle.std.specs.Str.{IsUtf8};
ghost use Rattle.wgsl_buffers.specs.Answers.{counted, at_place, Holds, Lacks, IsNoText};

/// The call did what it is for.
pub const DONE: u32 = 0;

/// The text is refused: the answer has the kind and the place of the fault, and its texts are in
/// the buffer if they fit.
pub const REFUSED: u32 = 1;

/// The bytes are not UTF-8: the answer starts where they stop being UTF-8.
pub const NOT_UTF8: u32 = 2;

/// An allocation failed.
pub const OUT_OF_MEMORY: u32 = 3;

/// The buffer is too small: the answer says how much is needed. The buffer is as it was.
pub const TOO_SMALL: u32 = 4;

/// No tree has the number that was asked for.
pub const UNKNOWN: u32 = 5;

/// The name of a file is not UTF-8. Nothing is written.
pub const BAD_NAME: u32 = 6;

/// The text nests too deep: the answer has the place where it first does, and the message is in the
/// buffer if it fits.
pub const TOO_DEEP: u32 = 7;

/// The result of a call beside its status. A number that does not go with the status is 0.
#[repr(C)]
#[derive(Clone, Copy, Debug, PartialEq, Eq)]
pub struct Answer {
    /// How many bytes or items there are to give.
    pub size: usize,
    /// Where a fault starts and ends, in bytes.
    pub start: usize,
    pub end: usize,
    /// The number of a fault's kind.
    pub kind: usize,
    /// How many texts were expected.
    pub expected: usize,
}

impl Answer {
    /// A number of bytes or items.
    pub(crate) fn of_size(size: usize) -> Answer
        ensures { result ≡ counted size }
    {
        Answer {
            size,
            start: 0,
            end: 0,
            kind: 0,
            expected: 0,
        }
    }

    /// Nothing, at a place.
    pub(crate) fn at(place: usize) -> Answer
        ensures { result ≡ at_place place }
    {
        Answer {
            size: 0,
            start: place,
            end: place,
            kind: 0,
            expected: 0,
        }
    }
}

/// Copies bytes to the buffer if they fit, and returns whether they do.
pub fn give(bytes: &[u8], buffer: &mut [u8]) -> bool
    ensures given { result ≡ true → take (length bytes.now) buffer.new ≡ bytes.now }
    ensures small { result ≡ false → length buffer.old < length bytes.now }
    ensures kept { result ≡ false → buffer.new ≡ buffer.old }
{
    let size = bytes.len();
    if buffer.len() < size {
        return false;
    }
    buffer[..size].copy_from_slice(bytes);
    true
}

/// Gives bytes as the result of a call, and returns the status.
pub fn tell_bytes(bytes: &[u8], buffer: &mut [u8], answer: &mut Answer) -> u32
    ensures { ((result ≡ 0) × Holds bytes.now buffer.new answer.new) ⊎
        ((result ≡ 4) × Lacks bytes.now buffer.old buffer.new answer.new) }
{
    *answer = Answer::of_size(bytes.len());
    if give(bytes, buffer) { DONE } else { TOO_SMALL }
}

/// Gives a text as the result of a call, and returns the status.
pub fn tell_text(text: &str, buffer: &mut [u8], answer: &mut Answer) -> u32
    ensures { ((result ≡ 0) × Holds text.now buffer.new answer.new) ⊎
        ((result ≡ 4) × Lacks text.now buffer.old buffer.new answer.new) }
{
    tell_bytes(text.as_bytes(), buffer, answer)
}

/// Gives a number as the result of a call, and returns the status.
pub fn tell_number(number: usize, answer: &mut Answer) -> u32
    ensures status { result ≡ 0 }
    ensures number { answer.new ≡ counted number }
{
    *answer = Answer::of_size(number);
    DONE
}

/// Reports that an allocation failed, and returns the status.
pub fn refuse_memory(answer: &mut Answer) -> u32
    ensures status { result ≡ 3 }
    ensures nothing { answer.new ≡ counted 0 }
{
    *answer = Answer::of_size(0);
    OUT_OF_MEMORY
}

/// Returns the text that the bytes are; else the answer says where they stop being one.
pub fn text_of<'t>(bytes: &'t [u8], answer: &mut Answer) -> Option<&'t str>
    ensures { MatchOption result (IsNoText bytes.now answer.new) (λ text.
        (text.now ≡ bytes.now) × IsUtf8 bytes.now) }
{
    match std::str::from_utf8(bytes) {
        Ok(text) => Some(text),
        Err(error) => {
            *answer = Answer::at(error.valid_up_to());
            None
        }
    }
}
