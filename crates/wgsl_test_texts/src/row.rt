//! The lines of a row.

use crate::text::text_after_quote;
use std::alloc::{AllocError, Global};

/// A line of a row, with the lines of text that go on after it: its words, and what it says.
#[derive(Drop)]
pub struct Field<'f> {
    pub words: &'f str,
    /// The text in quotes, or the last of several words where there is none.
    pub value: Vec<u8>,
}

/// A text, how it is read, and what is wanted of it.
#[derive(Drop)]
pub struct Row<'f> {
    alloc: Global,
    /// The first line, which says what the row shows.
    pub shows: &'f str,
    /// First what is read, and then what is wanted. A remark on the file has none.
    pub fields: Vec<Field<'f>>,
    /// Whether its texts are written as texts are.
    pub is_written: bool,
}

impl<'f> Row<'f> {
    /// Returns the row that is in a block of lines.
    pub fn of_block(alloc: Global, block: &'f str) -> Result<Row<'f>, AllocError> {
        let mut row = Row {
            alloc,
            shows: block.lines().next().unwrap_or(""),
            fields: Vec::new(alloc),
            is_written: true,
        };
        for line in block.lines() {
            if !line.starts_with('#') {
                row.take(line.trim())?;
            }
        }
        Ok(row)
    }

    /// Takes a line of words, with a text or without one, or a line of text alone.
    fn take(&mut self, line: &'f str) -> Result<(), AllocError> {
        let Some((words, after)) = line.split_once('"') else {
            let (words, last) = line.rsplit_once(' ').unwrap_or((line, ""));
            return self.put(words, last.as_bytes());
        };
        match text_after_quote(self.alloc, after)? {
            Some(text) => self.put(words.trim_end(), &text),
            None => {
                self.is_written = false;
                Ok(())
            }
        }
    }

    /// Puts a value after words, or after the last value and a line break where there are none.
    fn put(&mut self, words: &'f str, value: &[u8]) -> Result<(), AllocError> {
        match self.fields.last_mut() {
            Some(last) if words.is_empty() => {
                last.value.push(b'\n')?;
                last.value.extend_from_slice(value)
            }
            _ => {
                let value = Vec::from_slice(self.alloc, value)?;
                Ok(self.fields.push(Field { words, value })?)
            }
        }
    }

    /// Returns what is wanted under these words.
    pub fn wanted(&self, words: &str) -> Option<&[u8]> {
        let mut wanted = self.fields.iter().skip(1);
        let field = wanted.find(|field| field.words == words)?;
        Some(&field.value)
    }
}
