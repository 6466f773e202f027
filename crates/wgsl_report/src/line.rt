//! The line of a place as it is shown.

ghost use Rattle.std.specs.Prelude.{◌≡◌, drop, string_bytes, take, IfOk};
ghost use Rattle.std.specs.Str.{chars, encode_utf8_all};
ghost use Rattle.wgsl_report.specs.Lines as plain;

use crate::place::columns;
use std::alloc::{AllocError, Global};

/// How many columns of a line are shown at most.
const WIDEST: usize = 120;

/// How many on each side of a place in a longer line.
const SIDE: usize = 60;

/// How many of these are of the line, where three dots show that there are more.
const KEPT: usize = 57;

/// What is shown of a line with this front and this rest, of which so many characters are marked:
/// the line, or what is around the place between, and below it carets.
pub(crate) fn shown_line(
    alloc: Global,
    front: &str,
    back: &str,
    marks: usize,
) -> Result<String, AllocError>
    ensures { IfOk result (λ text. string_bytes text
        ≡ plain.shown_line (chars front.now) (chars back.now) marks) }
{
    let before = columns(front);
    if before + columns(back) <= WIDEST {
        return marked(alloc, front, back, before, marks.max(1));
    }
    let last = last_columns(alloc, front)?;
    let first = first_columns(alloc, back)?;
    marked(
        alloc,
        &last,
        &first,
        before.min(SIDE),
        marks.min(SIDE).max(1),
    )
}

/// A line in two parts, and below it carets after spaces.
fn marked(
    alloc: Global,
    front: &str,
    back: &str,
    spaces: usize,
    carets: usize,
) -> Result<String, AllocError>
    ensures { IfOk result (λ text. string_bytes text
        ≡ plain.marked front.now back.now spaces carets) }
{
    let spaces = " ".repeat(alloc, spaces)?;
    let carets = "^".repeat(alloc, carets)?;
    format!(in alloc; "{front}{back}\n{spaces}{carets}")
}

/// The last characters of a front of a line.
#[tactic(auto, using(crate::proofs::Columns::long_front))]
fn last_columns(alloc: Global, front: &str) -> Result<String, AllocError>
    ensures { IfOk result (λ text. string_bytes text ≡ plain.last_columns (chars front.now)) }
{
    let count = columns(front);
    if count <= SIDE {
        return String::from_str(alloc, front);
    }
    let end = from_column(alloc, front, count - KEPT)?;
    format!(in alloc; "...{end}")
}

/// The characters of a text after so many.
fn from_column(alloc: Global, text: &str, count: usize) -> Result<String, AllocError>
    ensures { IfOk result (λ end. string_bytes end
        ≡ encode_utf8_all (drop count (chars text.now))) }
{
    text.chars().skip(count).collect(alloc)
}

/// The first characters of the rest of a line.
#[tactic(auto, using(crate::proofs::Columns::long_back))]
fn first_columns(alloc: Global, back: &str) -> Result<String, AllocError>
    ensures { IfOk result (λ text. string_bytes text ≡ plain.first_columns (chars back.now)) }
{
    if columns(back) <= SIDE {
        return String::from_str(alloc, back);
    }
    let start = to_column(alloc, back, KEPT)?;
    format!(in alloc; "{start}...")
}

/// The first characters of a text, so many.
fn to_column(alloc: Global, text: &str, count: usize) -> Result<String, AllocError>
    ensures { IfOk result (λ start. string_bytes start
        ≡ encode_utf8_all (take count (chars text.now))) }
{
    text.chars().take(count).collect(alloc)
}
