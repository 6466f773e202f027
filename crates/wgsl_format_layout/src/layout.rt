//! What a user chooses of the layout.

ghost use Rattle.std.specs.Prelude.{◌≡◌, ◌+◌, IfOk};
ghost use Rattle.wgsl_model_tidy.specs.Layout as plain;
ghost use Rattle.wgsl_model_tidy.specs.Ahead.{is_within};
ghost use Rattle.wgsl_model_tidy.specs.LaidOut.{line_column};
ghost use Rattle.wgsl_format_layout.specs.Layouts.{layout_view};

use std::alloc::AllocError;

/// The layout of a formatted text: how long a line may be, how far it is indented, and with what it
/// ends.
#[derive(Clone, Copy, Debug, PartialEq, Eq)]
pub struct Layout {
    /// A line with more columns is broken at its operators and brackets, as far as it has any. If
    /// 0, none is.
    pub width: usize,
    pub indent: Indent,
    pub newlines: Newlines,
}

/// The blank space of one level of indentation.
#[derive(Clone, Copy, Debug, PartialEq, Eq)]
pub enum Indent {
    /// A number of spaces; a tab in a comment counts as many columns.
    Spaces(u8),
    /// A tab, which counts as a number of columns.
    Tab(u8),
}

/// The line breaks of a formatted text.
#[derive(Clone, Copy, Debug, PartialEq, Eq)]
pub enum Newlines {
    /// With CR LF if the first LF of the source is after CR, otherwise with LF.
    Auto,
    Lf,
    CrLf,
}

impl Layout {
    /// Returns the standard layout: lines of up to 100 columns, four spaces a level, and the line
    /// breaks of the source.
    pub fn standard() -> Layout
        ensures { layout_view result ≡ plain.standard }
    {
        Layout {
            width: 100,
            indent: Indent::Spaces(4),
            newlines: Newlines::Auto,
        }
    }

    /// How many columns a level takes.
    fn indent_columns(self) -> usize
        ensures { result ≡ (layout_view self).indent }
    {
        match self.indent {
            Indent::Spaces(columns) | Indent::Tab(columns) => usize::from(columns),
        }
    }

    /// The column at which a line of this depth begins.
    pub(crate) fn line_column(self, depth: usize) -> Result<usize, AllocError>
        ensures { IfOk result (λ column. column ≡ line_column (layout_view self) depth) }
    {
        match self.indent_columns().checked_mul(depth) {
            Some(column) => Ok(column),
            None => Err(AllocError),
        }
    }

    /// Whether a line that ends at a column and so many more is not too long.
    pub(crate) fn is_within(self, column: usize, more: usize) -> bool
        ensures { result ≡ is_within (layout_view self) (column + more) }
    {
        if self.width == 0 {
            return true;
        }
        match self.width.checked_sub(column) {
            Some(room) => more <= room,
            None => false,
        }
    }

    /// How many columns a character takes.
    pub(crate) fn columns(self, c: char) -> usize
        ensures { result ≡ plain.columns (layout_view self) c }
    {
        if c == '\t' { self.indent_columns() } else { 1 }
    }
}
