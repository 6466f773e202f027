//! Names.

ghost use Rattle.std.specs.Prelude.{◌≡◌, IfOk};
ghost use Rattle.wgsl_tree_expression.specs.View.{ident_name};
ghost use Rattle.wgsl_tree_renamed.specs.NewNames.{renaming_by};

use crate::new_names::NewNames;
use std::alloc::{AllocError, Global};
use wgsl_tree_expression::Ident;

/// A copy of a name, with its new name if it has one.
pub(crate) fn renamed_ident(
    ident: &Ident,
    names: &NewNames,
    alloc: Global,
) -> Result<Ident, AllocError>
    ensures { IfOk result (λ copy. ident_name copy ≡ renaming_by names.now (ident_name ident.now)) }
{
    let name = names.new_name(ident.name()).unwrap_or(ident.name());
    Ok(Ident::new(String::from_str(alloc, name)?))
}
