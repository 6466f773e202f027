//! The new names of a module's names.

ghost use Rattle.std.specs.Prelude.{◌≡◌, ◌++◌, bytes_eq, IfOk, OnOk, map};
ghost use Rattle.std.specs.List.{IsDistinct};
ghost use Rattle.std.specs.Map.{keys_of};
ghost use Rattle.wgsl_model_names.specs.Names.{unit_names};
ghost use Rattle.wgsl_model_minify.specs.Chosen.{AreNewNames};
ghost use Rattle.wgsl_minify_names.specs.View.{table_view, texts, which_view};
ghost use Rattle.wgsl_tree_renamed.specs.NewNames.{pairs};
ghost use Rattle.wgsl_tree_unit.specs.View.{unit_view};
ghost use Rattle.wgsl_minify.specs.Hosts as model;

use crate::hosts::host_names;
use crate::options::MinifyOptions;
use std::alloc::{AllocError, Global};
use wgsl_minify_names::choose;
use wgsl_tree_names::occurrences;
use wgsl_tree_renamed::NewNames;
use wgsl_tree_unit::TranslationUnit;

/// The names of a module that get new names, with these.
pub(crate) fn new_names(
    alloc: Global,
    unit: &TranslationUnit,
    options: MinifyOptions<'_>,
) -> Result<NewNames, AllocError>
    ensures { IfOk result (λ names. AreNewNames (which_view options.entry.names)
        (model.host_names (unit_view unit.now) ++ texts options.entry.keep.now)
        (unit_names (unit_view unit.now)) (pairs names)) }
{
    let names = occurrences(alloc, unit)?;
    let keep = kept_names(alloc, unit, options.keep)?;
    let list = choose(alloc, &names, options.names, &keep)?;
    let table = table_of(alloc, list)?;
    Ok(table)
}

/// The names of a module that host programs use, and these.
fn kept_names<'t>(
    alloc: Global,
    unit: &'t TranslationUnit,
    keep: &[&'t str],
) -> Result<Vec<&'t str>, AllocError>
    ensures { IfOk result (λ names. texts names.items
        ≡ model.host_names (unit_view unit.now) ++ texts keep.now) }
{
    let mut names = host_names(alloc, unit)?;
    'names: for name in keep {
        names.push(name)?;
    }
    Ok(names)
}

/// The table of names with their new names.
fn table_of(alloc: Global, list: Vec<(String, String)>) -> Result<NewNames, AllocError>
    requires { IsDistinct bytes_eq (keys_of (table_view list.items)) }
    ensures { IfOk result (λ names. pairs names ≡ table_view list.items) }
{
    let mut names = NewNames::new(alloc);
    'pairs: for (name, new_name) in list {
        names.insert(name, new_name)?;
    }
    Ok(names)
}
