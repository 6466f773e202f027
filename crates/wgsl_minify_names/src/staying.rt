//! The names that stay, and the others.

ghost use Rattle.std.specs.Prelude.{◌≡◌, ◌++◌, map, filter, not, IfOk, OnOk};
ghost use Rattle.std.specs.Option.{option_to_list};
ghost use Rattle.wgsl_model_minify.specs.Renamed.{fixed_words};
ghost use Rattle.wgsl_minify_names.specs.InScope.{is_in, no_scopes, name_of, names_of, staying};
ghost use Rattle.wgsl_minify_names.specs.View.{occurrence_view, texts};

use crate::scope::Scopes;
use crate::set::has;
use indexmap::IndexSet;
use std::alloc::{AllocError, Global};
use wgsl_tree_names::Occurrence;

/// The words that keep their spelling: `_`, and those of address spaces and access modes.
const FIXED_WORDS: [&str; 9] = [
    "_",
    "function",
    "private",
    "workgroup",
    "uniform",
    "storage",
    "read",
    "write",
    "read_write",
];

/// Adds a name to a list, if there is one.
fn push_some<'t>(names: &mut Vec<&'t str>, name: Option<&'t str>) -> Result<(), AllocError>
    ensures { OnOk result (texts names.new.items ≡ texts names.old.items ++ texts (option_to_list name.entry)) }
{
    if let Some(name) = name {
        names.push(name)?;
    }
    Ok(())
}

/// Returns the names that stay: those that may refer to something outside of the module or of which
/// it is not known what they refer to, with `locals` those that are declared in no scope, those to
/// be kept, and the words that keep their spelling. A name may be there more than once.
pub fn staying_names<'t>(
    alloc: Global,
    names: &[Occurrence<'t>],
    locals: bool,
    keep: &[&'t str],
) -> Result<Vec<&'t str>, AllocError>
    ensures { IfOk result (λ found. texts found.items
        ≡ staying locals no_scopes (map occurrence_view names.now) ++ (texts keep.now ++ fixed_words)) }
{
    let mut found = Vec::new(alloc);
    let mut scopes = Scopes::new(alloc);
    for occurrence in names {
        push_some(&mut found, scopes.staying(*occurrence, locals))?;
        scopes.meet(*occurrence)?;
    }
    found.extend_from_slice(keep)?;
    found.extend_from_slice(&FIXED_WORDS)?;
    Ok(found)
}

/// Returns the name that occurs, if there is one.
fn name_of<'t>(occurrence: Occurrence<'t>) -> Option<&'t str>
    ensures { texts (option_to_list result) ≡ name_of (occurrence_view occurrence.entry) }
{
    match occurrence {
        Occurrence::Use(name) | Occurrence::Unknown(name) | Occurrence::Declaration(name) => {
            Some(name)
        }
        Occurrence::Alternative(_, name) => name,
        Occurrence::ScopeStart | Occurrence::ScopeEnd => None,
    }
}

/// Returns the name that occurs, if it is not in a set.
fn other<'t>(occurrence: Occurrence<'t>, set: &IndexSet<&str>) -> Option<&'t str>
    ensures { texts (option_to_list result)
        ≡ filter (λ x. not (is_in x (texts set.now.keys))) (name_of (occurrence_view occurrence.entry)) }
{
    let name = name_of(occurrence)?;
    if has(set, name) {
        return None;
    }
    Some(name)
}

/// Returns the names that occur and are not in a set, as often as they occur.
pub fn others<'t>(
    alloc: Global,
    names: &[Occurrence<'t>],
    set: &IndexSet<&str>,
) -> Result<Vec<&'t str>, AllocError>
    ensures { IfOk result (λ found. texts found.items
        ≡ filter (λ x. not (is_in x (texts set.now.keys))) (names_of (map occurrence_view names.now))) }
{
    let mut found = Vec::new(alloc);
    for occurrence in names {
        push_some(&mut found, other(*occurrence, set))?;
    }
    Ok(found)
}
