//! The lines of a diff in groups: those that differ, with up to three on each side.

ghost use Rattle.std.specs.Prelude.{◌≡◌, ◌≤◌, ◌<◌, ◌+◌, length, map, take, IfOk};
ghost use Rattle.std.specs.List.{All};
ghost use Rattle.wgsl_diff.specs.Diffs.{AllKept, IsShort, AreHunks};
ghost use Rattle.wgsl_diff.specs.View.{line_view, hunk_view, IsSmall};

use crate::line::{Line, new_count, old_count};
use std::alloc::{AllocError, Global};

/// How many lines that both texts have are shown before and after those that differ.
const CONTEXT: usize = 3;

/// Lines of a diff that follow one another.
#[derive(Clone, Copy, Debug)]
pub struct Hunk<'s, 'a> {
    /// How many lines of the old text come before it.
    pub old_start: usize,
    /// How many lines of the new text come before it.
    pub new_start: usize,
    pub lines: &'s [Line<'a>],
}

/// Returns the hunks of a diff of which these are all lines.
pub fn hunks<'s, 'a>(alloc: Global, lines: &'s [Line<'a>]) -> Result<Vec<Hunk<'s, 'a>>, AllocError>
    ensures hunks { IfOk result (λ hunks. AreHunks 0 0 (map hunk_view hunks.items)
        (map line_view lines.now)) }
    ensures small { IfOk result (λ hunks. All IsSmall hunks.items) }
{
    let mut hunks = Vec::new(alloc);
    let mut at = 0;
    let mut old_start = 0;
    let mut new_start = 0;
    while at < lines.len() {
        let (_, rest) = lines.split_at(at);
        let kept = kept_count(rest);
        if kept == rest.len() {
            return Ok(hunks);
        }
        let skipped = kept.saturating_sub(CONTEXT);
        let (_, shown) = rest.split_at(skipped);
        let len = hunk_len(shown);
        let (group, _) = shown.split_at(len);
        old_start += skipped;
        new_start += skipped;
        hunks.push(Hunk {
            old_start,
            new_start,
            lines: group,
        })?;
        old_start += old_count(group);
        new_start += new_count(group);
        at += skipped + len;
    }
    Ok(hunks)
}

/// How many lines at the front both texts have.
fn kept_count(lines: &[Line<'_>]) -> usize
    ensures within { result ≤ length lines.now }
    ensures kept { AllKept (map line_view (take result lines.now)) }
    ensures most { result < length lines.now
        → ¬ (AllKept (map line_view (take (result + 1) lines.now))) }
{
    let mut count = 0;
    for line in lines {
        if !line.is_kept() {
            return count;
        }
        count += 1;
    }
    count
}

/// How many lines at the front are shown together: they end before more than twice `CONTEXT` lines
/// that both texts have.
fn hunk_len(lines: &[Line<'_>]) -> usize
    requires { ¬ (AllKept (map line_view (take 4 lines.now))) }
    ensures within { result ≤ length lines.now }
    ensures some { 0 < result }
    ensures short { IsShort 3 (map line_view (take result lines.now)) }
{
    let mut end = 0;
    for (at, line) in lines.iter().enumerate() {
        if at - end > 2 * CONTEXT {
            break;
        }
        if !line.is_kept() {
            end = at + 1;
        }
    }
    end.saturating_add(CONTEXT).min(lines.len())
}
