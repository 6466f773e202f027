//! What is declared under attributes, which may state a condition.

ghost use Rattle.std.specs.Prelude.{◌≡◌, IfOk};
ghost use Rattle.std.specs.Option.{option_map};
ghost use Rattle.wgsl_model_names.specs.Names.{both_branches, branch_of, branch_under};
ghost use Rattle.wgsl_model_names.specs.Names.{declared_under};
ghost use Rattle.wgsl_tree_attribute.specs.View.{attribute_view, attributes_view};
ghost use Rattle.wgsl_tree_names.specs.Found.{branch_view, name_view, Collects};

use crate::collected::{Branch, Collected, Occurrence};
use std::alloc::AllocError;
use wgsl_tree_attribute::{Attribute, Attributes};

/// Returns the condition that an attribute states, if it states one.
fn branch_of(attribute: &Attribute) -> Option<Branch>
    ensures { option_map branch_view result ≡ branch_of (attribute_view attribute.now) }
{
    match attribute {
        Attribute::If(_) => Some(Branch::If),
        Attribute::Elif(_) => Some(Branch::Elif),
        Attribute::Else => Some(Branch::Else),
        _ => None,
    }
}

/// Returns one condition and others.
fn both_branches(branch: Option<Branch>, others: Option<Branch>) -> Option<Branch>
    ensures { option_map branch_view result
        ≡ both_branches (option_map branch_view branch) (option_map branch_view others) }
{
    match (branch, others) {
        (None, others) => others,
        (Some(branch), None) => Some(branch),
        (Some(_), Some(_)) => Some(Branch::Several),
    }
}

/// Returns the condition under which a node with these attributes is there, if there is one.
fn branch_under(attributes: &Attributes) -> Option<Branch>
    ensures { option_map branch_view result ≡ branch_under (attributes_view attributes.now.items) }
{
    let mut branch = None;
    'attributes: for i in (0..attributes.len()).rev() {
        branch = both_branches(branch_of(attributes[i].node()), branch);
    }
    branch
}

/// Puts what a node with these attributes declares, maybe nothing, before what was collected.
pub(crate) fn put_declared<'t>(
    attributes: &Attributes,
    name: Option<&'t str>,
    found: &mut Collected<'t>,
) -> Result<(), AllocError>
    ensures { IfOk result (λ _. Collects
        (declared_under (attributes_view attributes.now.items) (name_view name.entry))
        found.old found.new) }
{
    match (branch_under(attributes), name) {
        (None, None) => Ok(()),
        (None, Some(name)) => found.put(Occurrence::Declaration(name)),
        (Some(branch), name) => found.put(Occurrence::Alternative(branch, name)),
    }
}
