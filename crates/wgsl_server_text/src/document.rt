//! The text of a document, and edits of it.

ghost use Rattle.std.specs.Prelude.{◌≡◌, ℕ, ◌≤◌, List, length, Some, None, IfOk, IfSome, OnOk, OnErr};
ghost use Rattle.std.specs.Result.{IsErrOf};
ghost use Rattle.std.specs.String.{string_bytes};
ghost use Rattle.std.specs.Str.{IsCharBoundary};
ghost use Rattle.wgsl_server_text.specs.Lines.{line_starts};
ghost use Rattle.wgsl_server_text.specs.Positions.{position_at, offset_at};
ghost use Rattle.wgsl_server_text.specs.Edits as plain;
ghost use Rattle.wgsl_server_text.specs.declared.document.EditError.TheVariants.{Outside};

use crate::encoding::PositionEncoding;
use crate::lines::line_starts;
use crate::places::{offset_in, position_in};
use crate::position::{Position, Range};
use std::alloc::{AllocError, Global};
use std::marker::Model;

/// A document's text. It knows where its lines begin.
#[derive(Drop)]
pub struct Document {
    text: String,
    starts: Vec<usize>,
    ghost lines: { starts.items ≡ line_starts (string_bytes text) },
}

impl Model for Document {
    ghost Value = { List ℕ };

    ghost view = { λ document. string_bytes document.text };
}

/// Why a text is not edited.
#[derive(Clone, Copy, Debug, PartialEq, Eq)]
pub enum EditError {
    /// Allocation fails.
    Memory,
    /// The range is not one of the text.
    Outside,
}

impl From<AllocError> for EditError {
    ghost use Rattle.std.specs.Prelude.{◌≡◌};
    ghost use Rattle.wgsl_server_text.specs.declared.document.EditError.TheVariants.{Memory};

    ghost from_gives = { λ _ e. e ≡ Memory };

    fn from(_error: AllocError) -> EditError {
        EditError::Memory
    }
}

impl Document {
    /// Creates a document with this text.
    pub fn new(alloc: Global, text: String) -> Result<Document, AllocError>
        ensures { IfOk result (λ document. document ≡ string_bytes text) }
    {
        let starts = line_starts(alloc, text.as_str().as_bytes())?;
        Ok(Document { text, starts })
    }

    /// Returns the text.
    pub fn text(&self) -> &str
        ensures { result.now ≡ self.now }
    {
        self.text.as_str()
    }

    /// Returns the position of an offset.
    pub fn position_at(&self, encoding: PositionEncoding, offset: usize) -> Position
        requires { offset ≤ length self.now }
        ensures { result ≡ position_at encoding self.now offset }
    {
        let text = self.text.as_str().as_bytes();
        position_in(encoding, text, self.starts.as_slice(), offset)
    }

    /// Returns the offset of a position. `None` if the text has no such line, and for a place
    /// inside of a character. A character after the end of its line is the end.
    pub fn offset_at(&self, encoding: PositionEncoding, position: Position) -> Option<usize>
        ensures offset { result ≡ offset_at encoding self.now position }
        ensures boundary { IfSome result (λ offset. IsCharBoundary self.now offset) }
    {
        let text = self.text.as_str().as_bytes();
        offset_in(encoding, text, self.starts.as_slice(), position)
    }

    /// Returns the range between two offsets.
    pub fn range_at(&self, encoding: PositionEncoding, start: usize, end: usize) -> Range
        requires start { start ≤ length self.now }
        requires end { end ≤ length self.now }
        ensures { result ≡ plain.range_at encoding self.now start end }
    {
        Range {
            start: self.position_at(encoding, start),
            end: self.position_at(encoding, end),
        }
    }

    /// Returns the offsets of a range. `None` if the text does not have it, or it ends before it
    /// starts.
    pub fn offsets_of(&self, encoding: PositionEncoding, range: Range) -> Option<(usize, usize)>
        ensures offsets { result ≡ plain.offsets_of encoding self.now range }
        ensures order { IfSome result (λ offsets. offsets.0 ≤ offsets.1) }
        ensures start { IfSome result (λ offsets. IsCharBoundary self.now offsets.0) }
        ensures end { IfSome result (λ offsets. IsCharBoundary self.now offsets.1) }
    {
        match self.offset_at(encoding, range.start) {
            Some(start) => match self.offset_at(encoding, range.end) {
                Some(end) if start <= end => Some((start, end)),
                _ => None,
            },
            None => None,
        }
    }

    /// Puts new text in place of a range, or of all. An `Err` changes nothing.
    pub fn edit(
        &mut self,
        alloc: Global,
        encoding: PositionEncoding,
        range: Option<Range>,
        new: &str,
    ) -> Result<(), EditError>
        ensures ok { OnOk result (plain.edited encoding self.old range new.now ≡ Some self.new) }
        ensures outside { IsErrOf result Outside → plain.edited encoding self.old range new.now ≡ None }
        ensures err { OnErr result (self.new ≡ self.old) }
    {
        let text = self.edited(alloc, encoding, range, new)?;
        let document = Document::new(alloc, text)?;
        *self = document;
        Ok(())
    }

    /// Returns the text with new text in place of a range, or of all.
    fn edited(
        &self,
        alloc: Global,
        encoding: PositionEncoding,
        range: Option<Range>,
        new: &str,
    ) -> Result<String, EditError>
        ensures ok { IfOk result (λ text. plain.edited encoding self.now range new.now ≡ Some (string_bytes text)) }
        ensures outside { IsErrOf result Outside → plain.edited encoding self.now range new.now ≡ None }
    {
        let Some(range) = range else {
            return Ok(String::from_str(alloc, new)?);
        };
        let Some((start, end)) = self.offsets_of(encoding, range) else {
            return Err(EditError::Outside);
        };
        Ok(replaced(alloc, self.text(), start, end, new)?)
    }
}

/// Returns a text with new text between two offsets.
fn replaced(
    alloc: Global,
    text: &str,
    start: usize,
    end: usize,
    new: &str,
) -> Result<String, AllocError>
    requires order { start ≤ end }
    requires start { IsCharBoundary text.now start }
    requires end { IsCharBoundary text.now end }
    ensures { IfOk result (λ all. string_bytes all ≡ plain.replaced text.now (start, end) new.now) }
{
    let mut all = String::from_str(alloc, &text[..start])?;
    all.push_str(new)?;
    all.push_str(&text[end..])?;
    Ok(all)
}
