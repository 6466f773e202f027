//! All lines of two texts as the lines of a diff.

ghost use Rattle.std.specs.Prelude.{◌≡◌, ◌⊎◌, ◌+◌, ◌≤◌, ◌<◌, ◌++◌, length, map, take, drop};
ghost use Rattle.std.specs.Prelude.{IfOk, OnOk};
ghost use Rattle.wgsl_diff.specs.Diffs as plain;
ghost use Rattle.wgsl_diff.specs.Matching.{GoOn, IsBlock};
ghost use Rattle.wgsl_diff.specs.View.{line_view, texts_of};

use crate::line::Line;
use std::alloc::{AllocError, Global};

/// How many lines may be removed and added before the next one that both texts have.
const REACH: usize = 64;

/// How many lines of each text change where there is none.
const BLOCK: usize = 32;

/// Returns the lines of two texts as those of a diff, of which those are kept that both have and
/// that are near each other.
pub fn script<'a>(
    alloc: Global,
    before: &[&'a [u8]],
    after: &[&'a [u8]],
) -> Result<Vec<Line<'a>>, AllocError>
    ensures { IfOk result (λ lines. plain.IsScript (texts_of before.now) (texts_of after.now)
        (map line_view lines.items)) }
{
    let mut lines = Vec::new(alloc);
    let mut i = 0;
    let mut j = 0;
    while i < before.len() || j < after.len() {
        if i < before.len() && j < after.len() && before[i] == after[j] {
            lines.push(Line::Kept(before[i]))?;
            i += 1;
            j += 1;
        } else {
            let (removed, added) = change_at(&before[i..], &after[j..]);
            push_removed(&mut lines, &before[i..i + removed])?;
            push_added(&mut lines, &after[j..j + added])?;
            i += removed;
            j += added;
        }
    }
    Ok(lines)
}

/// How many lines of each text come before the next one that both have.
fn change_at(before: &[&[u8]], after: &[&[u8]]) -> (usize, usize)
    requires some { 0 < length before.now + length after.now }
    requires other { ¬ (GoOn (texts_of before.now) (texts_of after.now)) }
    ensures removed { result.0 ≤ length before.now }
    ensures added { result.1 ≤ length after.now }
    ensures some { 0 < result.0 + result.1 }
    ensures apart { plain.AreApart (take result.0 (texts_of before.now))
        (take result.1 (texts_of after.now)) }
    ensures ends { GoOn (drop result.0 (texts_of before.now)) (drop result.1 (texts_of after.now))
        ⊎ (IsBlock result.0 (length before.now) × IsBlock result.1 (length after.now)) }
{
    for distance in 1..=REACH {
        for removed in 0..=distance {
            let added = distance - removed;
            if removed < before.len() && added < after.len() && before[removed] == after[added] {
                return (removed, added);
            }
        }
    }
    (before.len().min(BLOCK), after.len().min(BLOCK))
}

fn push_removed<'a>(lines: &mut Vec<Line<'a>>, texts: &[&'a [u8]]) -> Result<(), AllocError>
    ensures { OnOk result (map line_view lines.new.items
        ≡ map line_view lines.old.items ++ map plain.removed (texts_of texts.now)) }
{
    for text in texts {
        lines.push(Line::Removed(text))?;
    }
    Ok(())
}

fn push_added<'a>(lines: &mut Vec<Line<'a>>, texts: &[&'a [u8]]) -> Result<(), AllocError>
    ensures { OnOk result (map line_view lines.new.items
        ≡ map line_view lines.old.items ++ map plain.added (texts_of texts.now)) }
{
    for text in texts {
        lines.push(Line::Added(text))?;
    }
    Ok(())
}
