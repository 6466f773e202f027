//! The places of a declaration and of its uses.

ghost use Rattle.std.specs.Prelude.{◌≡◌, filter, map, IfOk};
ghost use Rattle.std.specs.List.{list_any};
ghost use Rattle.std.specs.Option.{option_copied};
ghost use Rattle.wgsl_references.specs.References.{is_at, is_declaration, is_of, place_of};

use std::alloc::{AllocError, Global};
use wgsl_lex_names::Name;
use wgsl_resolve_names::{Named, Names, Referent};
use wgsl_span::Span;

/// Returns whether one of some referents is the declaration with a number.
fn has_declaration(referents: &[Referent<'_>], number: usize) -> bool
    ensures { result ≡ list_any (is_declaration number) referents.now }
{
    'referents: for referent in referents {
        if let Referent::Declaration(other) = *referent {
            if other == number {
                return true;
            }
        }
    }
    false
}

/// Returns whether a name is where a declaration has its name, if there is one.
fn is_declared_at(declared: Option<&Name<'_>>, named: &Named<'_>) -> bool
    ensures { result ≡ is_at (option_copied declared.entry) named.now }
{
    match declared {
        Some(declared) => named.name.span.start == declared.span.start,
        None => false,
    }
}

/// Returns whether a name is declared by the declaration with a number, or may refer to it.
fn is_of(names: &Names<'_>, number: usize, named: &Named<'_>) -> bool
    ensures { result ≡ is_of number names.now named.now }
{
    let declared = names.declarations.get(number);
    is_declared_at(declared, named) || has_declaration(&named.referents, number)
}

/// Returns the places of a declaration, by its number among those of a module: where it has its
/// name, and where a name may refer to it, in the order of the text. Where there is no such
/// declaration, there are no places.
pub fn references(alloc: Global, names: &Names<'_>, number: usize) -> Result<Vec<Span>, AllocError>
    ensures { IfOk result (λ places. places.items
        ≡ map place_of (filter (is_of number names.now) names.now.names.items)) }
{
    let mut places = Vec::new(alloc);
    'names: for named in &names.names {
        if is_of(names, number, named) {
            places.push(named.name.span)?;
        }
    }
    Ok(places)
}
