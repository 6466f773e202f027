//! A text that is written piece by piece.

ghost use Rattle.std.specs.Prelude.{◌≡◌, true, chars, IfOk};
ghost use Rattle.std.specs.List.{list_all};
ghost use Rattle.wgsl_model_tidy.specs.LaidOut.{gap_text, indentation};
ghost use Rattle.wgsl_model_tidy.specs.Layout.{level};
ghost use Rattle.wgsl_format_layout.specs.Gaps.{gap_view};
ghost use Rattle.wgsl_format_layout.specs.Layouts.{layout_view};
ghost use Rattle.wgsl_format_layout.specs.Lines.{is_printable, Adds, IsEmpty};

use crate::gap::Gap;
use crate::layout::{Indent, Layout};
use crate::line::Line;
use std::alloc::{AllocError, Global};

/// A text, and its last line.
#[derive(Drop)]
pub struct Text {
    pub string: String,
    pub line: Line,
}

impl Text {
    /// An empty text with room for a number of bytes.
    pub(crate) fn with_capacity(
        alloc: Global,
        bytes: usize,
        layout: Layout,
    ) -> Result<Text, AllocError>
        ensures { IfOk result (λ text. IsEmpty layout text) }
    {
        Ok(Text {
            string: String::with_capacity(alloc, bytes)?,
            line: Line::new(layout),
        })
    }

    pub(crate) fn put(&mut self, piece: &str) -> Result<(), AllocError>
        ensures { IfOk result (λ _. Adds self.old (chars piece.now) self.new) }
    {
        self.string.push_str(piece)?;
        self.line.pass(piece)
    }

    /// Writes a text of which each character is a printable one of ASCII.
    pub(crate) fn put_printable(&mut self, piece: &str) -> Result<(), AllocError>
        requires { list_all is_printable piece.now ≡ true }
        ensures { IfOk result (λ _. Adds self.old (chars piece.now) self.new) }
    {
        self.string.push_str(piece)?;
        self.line.move_on(piece.len())
    }

    /// Writes the characters of a token, each of which is a printable one of ASCII if this is
    /// true.
    pub(crate) fn put_token(&mut self, piece: &str, in_ascii: bool) -> Result<(), AllocError>
        requires { in_ascii ≡ true → list_all is_printable piece.now ≡ true }
        ensures { IfOk result (λ _. Adds self.old (chars piece.now) self.new) }
    {
        if in_ascii {
            return self.put_printable(piece);
        }
        self.put(piece)
    }

    /// Writes one level of indentation.
    fn put_level(&mut self) -> Result<(), AllocError>
        ensures { IfOk result (λ _.
            Adds self.old (level (layout_view self.old.line.layout)) self.new) }
    {
        match self.line.layout.indent {
            Indent::Tab(_) => self.put("\t"),
            Indent::Spaces(count) => {
                'fours: for _ in 0..count / 4 {
                    self.put("    ")?;
                }
                'ones: for _ in 0..count % 4 {
                    self.put(" ")?;
                }
                Ok(())
            }
        }
    }

    /// Writes a number of levels of indentation.
    fn indent(&mut self, depth: usize) -> Result<(), AllocError>
        ensures { IfOk result (λ _.
            Adds self.old (indentation (layout_view self.old.line.layout) depth) self.new) }
    {
        'levels: for _ in 0..depth {
            self.put_level()?;
        }
        Ok(())
    }

    /// Writes what a gap has.
    pub(crate) fn put_gap(&mut self, gap: Gap) -> Result<(), AllocError>
        ensures { IfOk result (λ _. Adds self.old
            (gap_text (layout_view self.old.line.layout) (gap_view gap)) self.new) }
    {
        match gap {
            Gap::Closed => Ok(()),
            Gap::Blank => self.put(" "),
            Gap::Broken { empty, depth } => {
                self.put(if empty { "\n\n" } else { "\n" })?;
                self.indent(depth)
            }
        }
    }
}
