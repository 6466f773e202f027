//! What calls return, in the order in which they are made.

use crate::refusal::Refusal;
use std::alloc::Global;
use std::fmt;
use std::fmt::Write;

/// How much is kept of what calls return.
const MOST: usize = 1_500;

/// What values print for `{:?}`, as one number, which takes no memory.
#[derive(Clone, Copy, PartialEq, Eq)]
struct Digest(u64);

impl Digest {
    fn of<T: fmt::Debug>(value: &T) -> Digest {
        let mut digest = Digest(0xcbf2_9ce4_8422_2325);
        if write!(digest, "{value:?}").is_err() {
            digest = Digest(0);
        }
        digest
    }
}

impl Write for Digest {
    fn write_str(&mut self, text: &str) -> fmt::Result {
        for byte in text.as_bytes() {
            self.0 = (self.0 ^ u64::from(*byte)).wrapping_mul(0x100_0000_01b3);
        }
        Ok(())
    }
}

/// What a call on a text returns.
#[derive(Clone, Copy, Drop)]
pub struct Answer {
    pub call: &'static str,
    pub text: &'static str,
    digest: Digest,
}

/// What calls return. A call that is out of memory is made again.
#[derive(Drop)]
pub struct Answers {
    pub alloc: Global,
    answers: [Option<Answer>; MOST],
    count: usize,
    /// The last call that is out of memory.
    refused: Option<Answer>,
}

impl Answers {
    pub fn new(alloc: Global) -> Answers {
        Answers {
            alloc,
            answers: [None; MOST],
            count: 0,
            refused: None,
        }
    }

    /// Adds a value that a call on a text returns or leaves.
    pub fn see<T: fmt::Debug>(&mut self, call: &'static str, text: &'static str, value: &T) {
        let digest = Digest::of(value);
        self.answers[self.count] = Some(Answer { call, text, digest });
        self.count += 1;
    }

    /// Keeps that a call on a text is out of memory.
    pub fn refuse(&mut self, call: &'static str, text: &'static str) {
        let digest = Digest(0);
        self.refused = Some(Answer { call, text, digest });
    }

    /// Makes a call on a text.
    pub fn given<T: Drop, E: Refusal, F: Fn() -> Result<T, E> + Drop>(
        &mut self,
        call: &'static str,
        text: &'static str,
        make: F,
    ) -> Result<T, E> {
        match make() {
            Err(refusal) if refusal.is_want_of_memory() => {
                self.refuse(call, text);
                make()
            }
            made => made,
        }
    }

    /// Makes a call on a text, and adds what it returns.
    pub fn call<T: fmt::Debug + Drop, E: Refusal, F: Fn() -> Result<T, E> + Drop>(
        &mut self,
        call: &'static str,
        text: &'static str,
        make: F,
    ) -> Result<T, E> {
        let answer = self.given(call, text, make);
        self.see(call, text, &answer);
        answer
    }

    /// Makes a call that changes a value of a text, and adds what it returns and leaves. Out of
    /// memory leaves the value as it was.
    pub fn change<T: fmt::Debug, E: Refusal, F: Fn(&mut T) -> Result<(), E> + Drop>(
        &mut self,
        call: &'static str,
        text: &'static str,
        value: &mut T,
        make: F,
    ) {
        let before = Digest::of(value);
        let mut changed = make(value);
        if changed
            .as_ref()
            .is_err_and(|refusal| refusal.is_want_of_memory())
        {
            self.refuse(call, text);
            if Digest::of(value) != before {
                self.see(call, text, value);
            }
            changed = make(value);
        }
        self.see(call, text, &changed);
        self.see(call, text, value);
    }

    /// The first answer of another time that is not the same here, or that is out of memory there.
    pub fn first_other(&self, undisturbed: &Answers) -> Option<Answer> {
        let mut pairs = self.answers.iter().zip(undisturbed.answers.iter());
        let other = pairs.find(|(here, there)| here.map(|it| it.digest)
            != there.map(|it| it.digest));
        undisturbed
            .refused
            .or(other.and_then(|(here, there)| there.or(*here)))
    }
}
