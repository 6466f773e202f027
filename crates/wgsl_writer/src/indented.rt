//! A writer that indents what is written into it.

ghost use Rattle.std.specs.Prelude.{◌≡◌, ◌<◌, ◌+◌, ◌++◌, IsOk, IsTrue, IfOk, IfSome, MatchOption, codes, length, take};
ghost use Rattle.std.specs.Fmt.{WritesOnOk};
ghost use Rattle.wgsl_writer.specs.Depth.{spaces};
ghost use Rattle.wgsl_writer.specs.LineEnds.{IsOneLine, IsLineEnd, is_one_line};
ghost use Rattle.wgsl_writer.specs.Writing.{IsBack, IsDeeper, WritesInto, Wrote};

use std::fmt;
use std::fmt::Write;

/// A writer into a formatter, with the spaces of a depth after each LF.
#[derive(Drop)]
pub struct Indented<'a, W> {
    to: &'a mut fmt::Formatter<W>,
    /// Levels of four spaces.
    depth: usize,
}

impl<'a, W: fmt::Write> Indented<'a, W> {
    /// Creates a writer at the top, where there are no spaces.
    pub fn new(to: &'a mut fmt::Formatter<W>) -> Self
        ensures to { result.to ≡ to.entry }
        ensures depth { result.depth ≡ 0 }
    {
        Indented { to, depth: 0 }
    }

    /// Returns the formatter, to see what it holds.
    pub fn into_inner(self) -> &'a mut fmt::Formatter<W>
        ensures { result ≡ self.entry.to }
    {
        self.to
    }

    /// Indents what follows by one level more.
    pub fn indent(&mut self) -> fmt::Result
        ensures { IsOk result → IsDeeper self.old self.new }
    {
        match self.depth.checked_add(1) {
            Some(depth) => {
                self.depth = depth;
                Ok(())
            }
            None => Err(fmt::Error),
        }
    }

    /// Indents what follows by one level less.
    pub fn unindent(&mut self)
        ensures { IsBack self.old self.new }
    {
        self.depth = self.depth.saturating_sub(1);
    }

    /// Ends a line, and writes the spaces before the next one.
    pub fn write_line_end(&mut self) -> fmt::Result
        ensures { WritesInto W.write_str_gives self.old result (codes "\n") self.new }
    {
        match self.depth {
            0 => self.to.write_str("\n"),
            1 => self.to.write_str("\n    "),
            2 => self.to.write_str("\n        "),
            3 => self.to.write_str("\n            "),
            _ => {
                self.to.write_str("\n")?;
                write_spaces(self.depth, self.to)
            }
        }
    }

    /// Writes a text without an LF, which is not searched.
    pub fn write_piece(&mut self, text: &str) -> fmt::Result
        requires { IsTrue (is_one_line text.now) }
        ensures { WritesInto W.write_str_gives self.old result text.now self.new }
    {
        self.to.write_str(text)
    }

    /// Writes a value.
    pub fn write_value<D: fmt::Display>(&mut self, value: &D) -> fmt::Result
        ensures { IfSome (D.output value.now) (λ text.
            WritesInto W.write_str_gives self.old result text self.new) }
    {
        self.write(value)
    }
}

impl<W: fmt::Write> fmt::Write for Indented<'_, W> {
    ghost write_str_gives = { Wrote W.write_str_gives };

    fn write_str(&mut self, s: &str) -> fmt::Result {
        match line_end(s) {
            None => self.to.write_str(s),
            Some(at) => write_lines(s, at, self),
        }
    }
}

/// Writes a text whose first line ends there.
#[inline(never)]
fn write_lines<W: fmt::Write>(text: &str, first: usize, out: &mut Indented<'_, W>) -> fmt::Result
    requires { IsLineEnd text.now first }
    ensures { WritesInto W.write_str_gives out.old result text.now out.new }
{
    let mut left = write_line(text, first, out)?;
    'lines: while let Some(at) = line_end(left) {
        left = write_line(left, at, out)?;
    }
    out.to.write_str(left)
}

/// Writes the line that ends there, and gives what is after it.
fn write_line<'a, W: fmt::Write>(
    text: &'a str,
    end: usize,
    out: &mut Indented<'_, W>,
) -> Result<&'a str, fmt::Error>
    requires { IsLineEnd text.now end }
    ensures { IfOk result (λ rest. (text.now ≡ take (end + 1) text.now ++ rest.now) ×
        Wrote W.write_str_gives out.old (take (end + 1) text.now) out.new) }
{
    out.to.write_str(&text[..end])?;
    out.write_line_end()?;
    Ok(&text[end + 1..])
}

/// Where the first LF of a text is.
fn line_end(text: &str) -> Option<usize>
    ensures { MatchOption result (IsOneLine text.now (length text.now)) (λ at.
        IsLineEnd text.now at) }
{
    let bytes = text.as_bytes();
    'bytes: for i in 0..bytes.len() {
        if bytes[i] == b'\n' {
            return Some(i);
        }
    }
    None
}

/// Writes four spaces for each level.
fn write_spaces<W: fmt::Write>(levels: usize, f: &mut fmt::Formatter<W>) -> fmt::Result
    ensures { WritesOnOk W.write_str_gives f.old result (spaces levels) f.new }
{
    if levels < 4 {
        return write_few_spaces(levels, f);
    }
    write_spaces(levels - 4, f)?;
    f.write_str("                ")
}

fn write_few_spaces<W: fmt::Write>(levels: usize, f: &mut fmt::Formatter<W>) -> fmt::Result
    requires { levels < 4 }
    ensures { WritesOnOk W.write_str_gives f.old result (spaces levels) f.new }
{
    match levels {
        0 => Ok(()),
        1 => f.write_str("    "),
        2 => f.write_str("        "),
        _ => f.write_str("            "),
    }
}
