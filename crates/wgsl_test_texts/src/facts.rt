//! What is seen of a row's text, held against what the row wants.

use crate::row::Row;
use std::alloc::{AllocError, Global};
use std::fmt;

/// How a text is read of which no fact has to be asked for.
pub const MADE: &str = "made";

/// The facts that are seen of the text of a row.
#[derive(Drop)]
pub struct Facts<'r> {
    pub alloc: Global,
    pub row: &'r Row<'r>,
    /// How many facts the row asks for, of those that are seen.
    asked: usize,
    /// What the row wants and is not so, and the reverse.
    report: String,
}

impl<'r> Facts<'r> {
    /// Returns the facts of a row of whose text nothing is seen yet.
    pub fn new(alloc: Global, row: &'r Row<'r>) -> Facts<'r> {
        Facts {
            alloc,
            row,
            asked: 0,
            report: String::new(alloc),
        }
    }

    /// Adds a fact that a row may ask for by these words.
    pub fn tell<T: fmt::Display>(&mut self, words: &str, fact: &T) -> Result<(), AllocError> {
        self.see(words, fact, false)
    }

    /// Adds a fact that each row has to ask for, unless its text is made.
    pub fn answer<T: fmt::Display>(&mut self, words: &str, fact: &T) -> Result<(), AllocError> {
        let is_made = self.row.fields.first().is_some_and(|it| it.words == MADE);
        self.see(words, fact, !is_made)
    }

    fn see<T: fmt::Display>(
        &mut self,
        words: &str,
        fact: &T,
        is_required: bool,
    ) -> Result<(), AllocError> {
        let wanted = self.row.wanted(words);
        if wanted.is_some() {
            self.asked = self.asked.saturating_add(1);
        }
        let got = fact.to_string(self.alloc)?;
        let is_so = wanted.map_or(!is_required, |wanted| wanted == got.as_bytes());
        if is_so {
            return Ok(());
        }
        write!(self.report, "  got {words} {got:?}\n")
    }

    /// Reports what has to hold of every text where it does not.
    pub fn expect(&mut self, holds: bool, what: &str) -> Result<(), AllocError> {
        if holds {
            return Ok(());
        }
        write!(self.report, "  does not hold: {what}\n")
    }

    /// Compares a value with its copy: they are equal, and the text is that of both.
    pub fn compare<T: fmt::Display + PartialEq>(
        &mut self,
        value: &T,
        copy: &T,
        text: &str,
    ) -> Result<(), AllocError> {
        let is_alike = copy.to_string(self.alloc)?.as_str() == text && copy == value;
        self.expect(is_alike, "a copy is equal and prints alike")
    }

    /// Returns what is wrong with the row; nothing where it holds.
    pub fn report(mut self) -> Result<String, AllocError> {
        let row = self.row;
        self.expect(row.is_written, "texts are written as texts are")?;
        let is_seen = self.asked.saturating_add(1) == row.fields.len();
        self.expect(
            is_seen,
            "a row asks for something, and for what is seen of its text",
        )?;
        Ok(self.report)
    }
}
