//! The text of a unified diff.

ghost use Rattle.std.specs.Prelude.{◌≡◌, ◌++◌, ◌<◌, ◌+◌, ◌^◌, length, map};
ghost use Rattle.std.specs.Prelude.{string_bytes, IfOk, OnOk};
ghost use Rattle.std.specs.List.{All};
ghost use Rattle.wgsl_diff.specs.Printing.{first_number, print_range, print_name, print_diff};
ghost use Rattle.wgsl_diff.specs.Printing.{print_hunk, print_head, print_line, print_text};
ghost use Rattle.wgsl_diff.specs.View.{line_view, hunk_view, IsSmall};

use crate::hunk::Hunk;
use crate::line::{Line, new_count, old_count};
use std::alloc::{AllocError, Global};

/// Writes the diff of the file of this name at the end of the output.
pub fn push_diff(
    alloc: Global,
    output: &mut Vec<u8>,
    name: &str,
    hunks: &[Hunk<'_, '_>],
) -> Result<(), AllocError>
    requires { All IsSmall hunks.now }
    ensures { OnOk result (output.new.items
        ≡ output.old.items ++ print_diff name.now (map hunk_view hunks.now)) }
{
    let name = name_of(alloc, name)?;
    let names = format!(in alloc; "--- {name}\n+++ {name}\n")?;
    output.extend_from_slice(names.as_bytes())?;
    for hunk in hunks {
        push_hunk(alloc, output, hunk)?;
    }
    Ok(())
}

/// A name as `patch` reads it: followed by a tab if it has a space.
fn name_of(alloc: Global, name: &str) -> Result<String, AllocError>
    ensures { IfOk result (λ printed. string_bytes printed ≡ print_name name.now) }
{
    if name.as_bytes().contains(&b' ') {
        format!(in alloc; "{name}\t")
    } else {
        String::from_str(alloc, name)
    }
}

fn push_hunk(alloc: Global, output: &mut Vec<u8>, hunk: &Hunk<'_, '_>) -> Result<(), AllocError>
    requires { IsSmall hunk.now }
    ensures { OnOk result (output.new.items
        ≡ output.old.items ++ print_hunk (hunk_view hunk.now)) }
{
    let head = head_of(alloc, hunk)?;
    output.extend_from_slice(head.as_bytes())?;
    for line in hunk.lines {
        push_line(output, *line)?;
    }
    Ok(())
}

/// The first line of a hunk.
#[tactic(auto, unfolding(crate::specs::Printing::print_head))]
fn head_of(alloc: Global, hunk: &Hunk<'_, '_>) -> Result<String, AllocError>
    requires { IsSmall hunk.now }
    ensures { IfOk result (λ head. string_bytes head ≡ print_head (hunk_view hunk.now)) }
{
    let old = range_of(alloc, hunk.old_start, old_count(hunk.lines))?;
    let new = range_of(alloc, hunk.new_start, new_count(hunk.lines))?;
    format!(in alloc; "@@ -{old} +{new} @@\n")
}

/// The number of the first of some lines, and how many they are.
fn range_of(alloc: Global, before: usize, count: usize) -> Result<String, AllocError>
    requires { before < 2 ^ 63 }
    ensures { IfOk result (λ range. string_bytes range ≡ print_range before count) }
{
    let first = first_number(before, count);
    format!(in alloc; "{first},{count}")
}

/// The number of the first of some lines; of no lines that of the line before them.
#[tactic(auto, unfolding(crate::specs::Printing::first_number))]
fn first_number(before: usize, count: usize) -> usize
    requires { before < 2 ^ 63 }
    ensures { result ≡ first_number before count }
{
    if count == 0 { before } else { before + 1 }
}

fn push_line(output: &mut Vec<u8>, line: Line<'_>) -> Result<(), AllocError>
    ensures { OnOk result (output.new.items
        ≡ output.old.items ++ print_line (line_view line.entry)) }
{
    match line {
        Line::Kept(text) => push_text(output, b' ', text),
        Line::Removed(text) => push_text(output, b'-', text),
        Line::Added(text) => push_text(output, b'+', text),
    }
}

/// Writes a line after its sign.
fn push_text(output: &mut Vec<u8>, sign: u8, text: &[u8]) -> Result<(), AllocError>
    ensures { OnOk result (output.new.items ≡ output.old.items ++ print_text sign text.now) }
{
    output.push(sign)?;
    output.extend_from_slice(text)?;
    if !text.ends_with(b"\n") {
        output.extend_from_slice(b"\n\\ No newline at end of file\n")?;
    }
    Ok(())
}
