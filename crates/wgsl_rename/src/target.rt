//! The declaration that the name at a place is of.

ghost use Rattle.std.specs.Prelude.{◌≡◌, ℕ, ◌<◌, true, false, length, slice_get, HoldsAt, IfErr, IfOk, MatchOption};
ghost use Rattle.std.specs.List.{list_any};
ghost use Rattle.wgsl_lex_names.specs.View.{role_view};
ghost use Rattle.wgsl_references.specs.References as references;
ghost use Rattle.wgsl_rename.specs.Renames.{IsDeclarationAt, is_at, is_member};
ghost use Rattle.wgsl_rename.specs.Targets.{HasNoDeclaration};

use crate::error::{Refusal, RenameError};
use wgsl_lex_names::{Declared, Role};
use wgsl_resolve_names::{Named, Names, Referent};
use wgsl_span::Span;

/// Returns whether a place is in a name, or at its end.
fn is_at(place: usize, named: &Named<'_>) -> bool
    ensures { result ≡ is_at place named.now }
{
    named.name.span.start <= place && place <= named.name.span.end
}

/// Returns the number of the first name at a place, if one is there.
fn name_at(names: &[Named<'_>], place: usize) -> Option<usize>
    ensures { MatchOption result (list_any (is_at place) names.now ≡ false) (λ index.
        (index < length names.now) × HoldsAt (λ named. is_at place named ≡ true) names.now index) }
{
    'names: for index in 0..names.len() {
        if is_at(place, &names[index]) {
            return Some(index);
        }
    }
    None
}

/// Returns the number of the declaration that has its name where a name is, if there is one.
fn declared_at(names: &Names<'_>, named: &Named<'_>) -> Option<usize>
    ensures { MatchOption result
        ((n : ℕ) → references.is_at (slice_get names.now.declarations.items n) named.now ≡ false)
        (λ n. references.is_at (slice_get names.now.declarations.items n) named.now ≡ true) }
{
    'declarations: for number in 0..names.declarations.len() {
        if names.declarations[number].span.start == named.name.span.start {
            return Some(number);
        }
    }
    None
}

/// Returns the first declaration among some referents, if there is one.
fn first_declaration(referents: &[Referent<'_>]) -> Option<usize>
    ensures { MatchOption result
        ((n : ℕ) → list_any (references.is_declaration n) referents.now ≡ false)
        (λ n. list_any (references.is_declaration n) referents.now ≡ true) }
{
    'referents: for referent in referents {
        if let Referent::Declaration(number) = *referent {
            return Some(number);
        }
    }
    None
}

/// Returns a declaration that a name is of, by its number, if there is one.
fn declaration_of(names: &Names<'_>, named: &Named<'_>) -> Option<usize>
    ensures { MatchOption result
        ((n : ℕ) → references.is_of n names.now named.now ≡ false)
        (λ n. references.is_of n names.now named.now ≡ true) }
{
    match declared_at(names, named) {
        Some(number) => Some(number),
        None => first_declaration(&named.referents),
    }
}

/// Returns whether a name that is so is a member of a structure, or components of a vector.
fn is_member(role: Role) -> bool
    ensures { result ≡ is_member (role_view role) }
{
    matches!(role, Role::Component | Role::Declares(Declared::Member))
}

/// Returns a declaration that the first name at a place is of, by its number, with the place of that
/// name.
pub(crate) fn declaration_at(names: &Names<'_>, place: usize) -> Result<(usize, Span), RenameError>
    ensures declared { IfOk result (λ found. IsDeclarationAt names.now place found.0) }
    ensures undeclared { IfErr result (HasNoDeclaration names.now place) }
{
    let Some(index) = name_at(&names.names, place) else {
        let start = place;
        return Err(RenameError::Refused(Refusal::NoName, Span { start, end: place }));
    };
    let named = &names.names[index];
    let span = named.name.span;
    if let Some(number) = declaration_of(names, named) {
        return Ok((number, span));
    }
    if is_member(named.role) {
        return Err(RenameError::Refused(Refusal::Member, span));
    }
    Err(RenameError::Refused(Refusal::Outside, span))
}
