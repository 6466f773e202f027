//! The column at which a text ends.

ghost use Rattle.std.specs.Prelude.{◌≡◌, ◌+◌, ◌∷◌, [], true, chars, IfOk};
ghost use Rattle.std.specs.List.{list_all};
ghost use Rattle.wgsl_model_tidy.specs.Layout as plain;
ghost use Rattle.wgsl_format_layout.specs.Layouts.{layout_view};
ghost use Rattle.wgsl_format_layout.specs.Lines.{Passes, MovesOn, is_printable};

use crate::layout::Layout;
use std::alloc::AllocError;
use wgsl_lex_scanner::text::split_first;

/// Whether each character of a text is a printable one of ASCII, which takes one column.
pub(crate) fn is_printable(text: &str) -> bool
    ensures { result ≡ list_all is_printable text.now }
{
    text.as_bytes().iter().all(|b| b' ' <= *b && *b <= b'~')
}

/// The sum of two numbers of columns. A line so long that no number says its columns has no place
/// in memory.
pub(crate) fn added(columns: usize, more: usize) -> Result<usize, AllocError>
    ensures { IfOk result (λ sum. sum ≡ columns + more) }
{
    match columns.checked_add(more) {
        Some(sum) => Ok(sum),
        None => Err(AllocError),
    }
}

/// How many columns a text has, or what is after its last line break.
pub(crate) fn width_of(text: &str, layout: Layout) -> Result<usize, AllocError>
    ensures { IfOk result (λ width.
        width ≡ plain.column_after (layout_view layout) 0 (chars text.now)) }
{
    let mut line = Line::new(layout);
    line.pass(text)?;
    Ok(line.column)
}

/// The same, where each character is a printable one of ASCII.
pub(crate) fn printable_width(text: &str) -> usize
    requires { list_all is_printable text.now ≡ true }
    ensures { (layout : plain.Layout) → result ≡ plain.column_after layout 0 (chars text.now) }
{
    text.len()
}

/// The last line of a text.
#[derive(Clone, Copy)]
pub struct Line {
    pub layout: Layout,
    /// How many columns it has.
    pub column: usize,
}

impl Line {
    /// The only line of an empty text.
    pub(crate) fn new(layout: Layout) -> Line
        ensures layout { result.layout ≡ layout }
        ensures column { result.column ≡ 0 }
    {
        Line { layout, column: 0 }
    }

    /// Goes over a character.
    fn pass_one(&mut self, c: char) -> Result<(), AllocError>
        ensures { IfOk result (λ _. Passes self.old (c ∷ []) self.new) }
    {
        if c == '\n' {
            self.column = 0;
            return Ok(());
        }
        self.move_on(self.layout.columns(c))
    }

    /// Goes on by a number of columns.
    pub(crate) fn move_on(&mut self, columns: usize) -> Result<(), AllocError>
        ensures { IfOk result (λ _. MovesOn self.old columns self.new) }
    {
        self.column = added(self.column, columns)?;
        Ok(())
    }

    /// Goes over a text.
    pub(crate) fn pass(&mut self, text: &str) -> Result<(), AllocError>
        ensures { IfOk result (λ _. Passes self.old (chars text.now) self.new) }
    {
        if is_printable(text) {
            return self.move_on(text.len());
        }
        let mut rest = text;
        'characters: while let Some((c, after)) = split_first(rest) {
            self.pass_one(c)?;
            rest = after;
        }
        Ok(())
    }
}
