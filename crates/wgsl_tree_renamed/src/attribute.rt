//! Lists of attributes.

ghost use Rattle.std.specs.Prelude.{◌≡◌, IfOk};
ghost use Rattle.wgsl_model_names.specs.Renamed.{renamed_attributes};
ghost use Rattle.wgsl_tree_attribute.specs.View.{attributes_view};
ghost use Rattle.wgsl_tree_renamed.specs.NewNames.{renaming_by};

use crate::new_names::NewNames;
use crate::traits::Rename;
use std::alloc::{AllocError, Global};
use wgsl_tree_attribute::Attributes;

/// A copy of a list of attributes.
pub(crate) fn renamed_attributes(
    attributes: &Attributes,
    names: &NewNames,
    alloc: Global,
) -> Result<Attributes, AllocError>
    ensures { IfOk result (λ copy. attributes_view copy.items
        ≡ renamed_attributes (renaming_by names.now) (attributes_view attributes.now.items)) }
{
    attributes.renamed(names, alloc)
}
