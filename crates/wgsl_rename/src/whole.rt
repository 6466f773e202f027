//! The places at which a new name is written.

ghost use Rattle.std.specs.Prelude.{map, IfErr, IfOk, OnOk};
ghost use Rattle.wgsl_lex_names.specs.View.{event_view};
ghost use Rattle.wgsl_resolve_names.specs.Found.{AreNames};
ghost use Rattle.wgsl_rename.specs.Renames.{IsRefused, IsRenaming, KeepsReferents, written_at};
ghost use Rattle.wgsl_rename.specs.Captured.{IsLost};

use crate::changed::first_changed;
use crate::edit::Edit;
use crate::error::{Refusal, RenameError};
use crate::new_name::check_name;
use crate::target::declaration_at;
use std::alloc::Global;
use wgsl_lex_names::Event;
use wgsl_references::references;
use wgsl_resolve_names::{Names, resolve};
use wgsl_span::Span;

/// Checks that each use refers to what it did where a name is written at some places.
fn check_uses<'s>(
    alloc: Global,
    events: &[Event<'s>],
    names: &Names<'s>,
    places: &[Span],
    name: &'s str,
) -> Result<(), RenameError>
    requires { AreNames (map event_view events.now) names.now }
    ensures kept { OnOk result
        (KeepsReferents (written_at places.now name.now) (map event_view events.now)) }
    ensures lost { IfErr result (IsLost (written_at places.now name.now) (map event_view events.now)) }
{
    let edit = Edit::new(alloc, places, name)?;
    let edited = edit.events(alloc, events)?;
    let after = resolve(alloc, &edited)?;
    match first_changed(&names.names, &after.names) {
        None => Ok(()),
        Some(index) => {
            let span = names.names[index].name.span;
            Err(RenameError::Refused(Refusal::Captured, span))
        }
    }
}

/// Returns the places at which a new name is written to rename what has its name at a place, in the
/// order of the text, by what happens to names in it.
pub fn renamed_places<'s>(
    alloc: Global,
    events: &[Event<'s>],
    place: usize,
    name: &'s str,
) -> Result<Vec<Span>, RenameError>
    ensures renamed { IfOk result (λ places.
        IsRenaming (map event_view events.now) place name.now places.items) }
    ensures refused { IfErr result (IsRefused (map event_view events.now) place name.now) }
{
    let names = resolve(alloc, events)?;
    let (number, span) = declaration_at(&names, place)?;
    if let Err(refusal) = check_name(name) {
        return Err(RenameError::Refused(refusal, span));
    }
    let places = references(alloc, &names, number)?;
    check_uses(alloc, events, &names, &places, name)?;
    Ok(places)
}
