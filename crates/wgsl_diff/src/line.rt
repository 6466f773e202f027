//! The lines of a diff.

ghost use Rattle.std.specs.Prelude.{◌≡◌, ◌≤◌, length, map};
ghost use Rattle.wgsl_diff.specs.Diffs.{is_kept, in_old, in_new, old_lines, new_lines};
ghost use Rattle.wgsl_diff.specs.View.{line_view};

/// A line of a diff, with its LF.
#[derive(Clone, Copy, Debug, PartialEq, Eq)]
pub enum Line<'a> {
    /// Both texts have it.
    Kept(&'a [u8]),
    /// The old text alone has it.
    Removed(&'a [u8]),
    /// The new text alone has it.
    Added(&'a [u8]),
}

impl Line<'_> {
    /// Returns whether both texts have it.
    pub fn is_kept(&self) -> bool
        ensures { result ≡ is_kept (line_view self.now) }
    {
        matches!(self, Line::Kept(_))
    }

    /// Returns whether the old text has it.
    pub fn in_old(&self) -> bool
        ensures { result ≡ in_old (line_view self.now) }
    {
        !matches!(self, Line::Added(_))
    }

    /// Returns whether the new text has it.
    pub fn in_new(&self) -> bool
        ensures { result ≡ in_new (line_view self.now) }
    {
        !matches!(self, Line::Removed(_))
    }
}

/// Returns how many of these lines the old text has.
pub fn old_count(lines: &[Line<'_>]) -> usize
    ensures count { result ≡ length (old_lines (map line_view lines.now)) }
    ensures bound { result ≤ length lines.now }
{
    let mut count = 0;
    for line in lines {
        count += usize::from(line.in_old());
    }
    count
}

/// Returns how many of these lines the new text has.
pub fn new_count(lines: &[Line<'_>]) -> usize
    ensures count { result ≡ length (new_lines (map line_view lines.now)) }
    ensures bound { result ≤ length lines.now }
{
    let mut count = 0;
    for line in lines {
        count += usize::from(line.in_new());
    }
    count
}
