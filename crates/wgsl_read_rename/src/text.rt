//! The places at which a new name is written in a text.

ghost use Rattle.std.specs.Prelude.{chars, IfErr, IfOk};
ghost use Rattle.wgsl_read_rename.specs.Renamed.{IsRefusedOf, IsRenamingOf};

use std::alloc::Global;
use wgsl_read_names::events_within;
use wgsl_rename::{RenameError, renamed_places};
use wgsl_span::Span;

/// Returns the places at which a new name is written to rename what has its name at a byte offset of
/// a text, in it or at its end: those of its declaration and of its uses, in the order of the text,
/// which has the syntax of a module. Each use refers to what it did; otherwise nothing is renamed.
/// It is not checked that no scope declares the new name twice, where neither is used after that.
/// The time grows with the length of the text, if each name is declared under few conditions.
pub fn rename(
    alloc: Global,
    source: &str,
    place: usize,
    name: &str,
) -> Result<Vec<Span>, RenameError>
    ensures renamed { IfOk result (λ places.
        IsRenamingOf (chars source.now) place name.now places.items) }
    ensures refused { IfErr result (IsRefusedOf (chars source.now) place name.now) }
{
    rename_within(alloc, source, usize::MAX, place, name)
}

/// Returns what `rename` does, on a stack that grows with a depth, as `events_within`.
pub fn rename_within<'s>(
    alloc: Global,
    source: &'s str,
    depth: usize,
    place: usize,
    name: &'s str,
) -> Result<Vec<Span>, RenameError>
    ensures renamed { IfOk result (λ places.
        IsRenamingOf (chars source.now) place name.now places.items) }
    ensures refused { IfErr result (IsRefusedOf (chars source.now) place name.now) }
{
    let events = events_within(alloc, source, depth)?;
    renamed_places(alloc, &events, place, name)
}
