//! Modules.

ghost use Rattle.std.specs.Prelude.{◌≡◌, IfOk};
ghost use Rattle.wgsl_model_minify.specs.NewNames.{renaming_of};
ghost use Rattle.wgsl_model_names.specs.Renamed.{renamed_unit};
ghost use Rattle.wgsl_tree_renamed.specs.NewNames.{pairs};
ghost use Rattle.wgsl_tree_unit.specs.View.{unit_view};

use crate::new_names::NewNames;
use crate::traits::Rename;
use std::alloc::{AllocError, Global};
use wgsl_tree_unit::TranslationUnit;

/// Returns a copy of a module in which each use and each declaration of a name in the table has
/// its new name, unless allocation fails. Names of members and what is after a `.` stay, and so do
/// the names in the arguments of `@if` and `@elif`, and of attributes that WGSL does not have.
pub fn rename(
    unit: &TranslationUnit,
    names: &NewNames,
    alloc: Global,
) -> Result<TranslationUnit, AllocError>
    ensures { IfOk result (λ copy. unit_view copy
        ≡ renamed_unit (renaming_of (pairs names.now)) (unit_view unit.now)) }
{
    Ok(TranslationUnit {
        global_directives: unit.global_directives.renamed(names, alloc)?,
        global_declarations: unit.global_declarations.renamed(names, alloc)?,
    })
}
