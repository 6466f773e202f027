//! Written by tools/tables/renamed_trees.py from crates/wgsl_model/nodes: copies with new names.

ghost use Rattle.std.specs.Prelude.{◌≡◌, IfOk};
ghost use Rattle.wgsl_model.specs.Trees.Spanned as plain_spanned;
ghost use Rattle.wgsl_model.specs.Trees.Attributes as plain;
ghost use Rattle.wgsl_model_names.specs.Renamed.{renamed_attribute, renamed_spanned};
ghost use Rattle.wgsl_span.specs.View.{spanned_view};
ghost use Rattle.wgsl_tree_attribute.specs.View.{attribute_view, type_constraint_view};
ghost use Rattle.wgsl_tree_attribute.specs.View.{workgroup_size_view};
ghost use Rattle.wgsl_tree_renamed.specs.NewNames.{renaming_by};

use crate::ident::renamed_ident;
use crate::new_names::NewNames;
use crate::traits::{Rename, renamed_spanned};
use std::alloc::{AllocError, Global};
use wgsl_tree_attribute::{Attribute, AttributeNode, TypeConstraint, WorkgroupSizeAttribute};

impl Rename for Attribute {
    ghost Plain = { plain.Attribute };

    ghost view = { attribute_view };

    ghost changed = { renamed_attribute };

    fn renamed(&self, names: &NewNames, alloc: Global) -> Result<Self, AllocError> {
        match self {
            Attribute::Align(inner) => Ok(Attribute::Align(inner.renamed(names, alloc)?)),
            Attribute::Binding(inner) => Ok(Attribute::Binding(inner.renamed(names, alloc)?)),
            Attribute::BlendSrc(inner) => Ok(Attribute::BlendSrc(inner.renamed(names, alloc)?)),
            Attribute::Group(inner) => Ok(Attribute::Group(inner.renamed(names, alloc)?)),
            Attribute::Id(inner) => Ok(Attribute::Id(inner.renamed(names, alloc)?)),
            Attribute::Location(inner) => Ok(Attribute::Location(inner.renamed(names, alloc)?)),
            Attribute::Size(inner) => Ok(Attribute::Size(inner.renamed(names, alloc)?)),
            Attribute::WorkgroupSize(inner) => Ok(Attribute::WorkgroupSize(renamed_workgroup_size(
                inner, names, alloc,
            )?)),
            Attribute::TypeConstraint(inner) => Ok(Attribute::TypeConstraint(
                renamed_type_constraint(inner, names, alloc)?,
            )),
            Attribute::If(_)
            | Attribute::Elif(_)
            | Attribute::Builtin(_)
            | Attribute::Const
            | Attribute::Invariant
            | Attribute::MustUse
            | Attribute::Vertex
            | Attribute::Fragment
            | Attribute::Compute
            | Attribute::Else
            | Attribute::Diagnostic(_)
            | Attribute::Interpolate(_)
            | Attribute::Custom(_) => self.clone(alloc),
        }
    }
}

impl Rename for AttributeNode {
    ghost Plain = { plain_spanned.Spanned plain.Attribute };

    ghost view = { spanned_view attribute_view };

    ghost changed = { λ f. renamed_spanned (renamed_attribute f) };

    fn renamed(&self, names: &NewNames, alloc: Global) -> Result<Self, AllocError> {
        renamed_spanned(self, names, alloc)
    }
}

fn renamed_workgroup_size(
    node: &WorkgroupSizeAttribute,
    names: &NewNames,
    alloc: Global,
) -> Result<WorkgroupSizeAttribute, AllocError>
    ensures { IfOk result (λ copy.
        plain.workgroup_size (workgroup_size_view copy)
        ≡ renamed_attribute (renaming_by names.now)
        (plain.workgroup_size (workgroup_size_view node.now))) }
{
    Ok(WorkgroupSizeAttribute {
        x: node.x.renamed(names, alloc)?,
        y: node.y.renamed(names, alloc)?,
        z: node.z.renamed(names, alloc)?,
    })
}

fn renamed_type_constraint(
    node: &TypeConstraint,
    names: &NewNames,
    alloc: Global,
) -> Result<TypeConstraint, AllocError>
    ensures { IfOk result (λ copy.
        plain.type_constraint (type_constraint_view copy)
        ≡ renamed_attribute (renaming_by names.now)
        (plain.type_constraint (type_constraint_view node.now))) }
{
    Ok(TypeConstraint {
        ident: renamed_ident(&node.ident, names, alloc)?,
        variants: node.variants.renamed(names, alloc)?,
    })
}
