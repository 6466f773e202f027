//! Written by tools/tables/collected_names.py from crates/wgsl_model/nodes: names of nodes.

ghost use Rattle.wgsl_model.specs.Trees.Spanned.{Spanned};
ghost use Rattle.wgsl_model.specs.Trees.Attributes as plain;
ghost use Rattle.wgsl_model_names.specs.Names.{spanned_attribute_names};
ghost use Rattle.wgsl_span.specs.View.{spanned_view};
ghost use Rattle.wgsl_tree_attribute.specs.View.{attribute_view};

use crate::collected::{Collected, Kind, Occurrence};
use crate::expression::{put_expression, put_unknown};
use crate::named::Named;
use std::alloc::AllocError;
use wgsl_tree_attribute::{Attribute, AttributeNode};

impl Named for AttributeNode {
    ghost Plain = { Spanned plain.Attribute };

    ghost view = { spanned_view attribute_view };

    ghost names = { spanned_attribute_names };

    fn put_names<'t>(&'t self, found: &mut Collected<'t>) -> Result<(), AllocError> {
        match self.node() {
            Attribute::Align(inner)
            | Attribute::Binding(inner)
            | Attribute::BlendSrc(inner)
            | Attribute::Group(inner)
            | Attribute::Id(inner)
            | Attribute::Location(inner)
            | Attribute::Size(inner) => inner.put_names(found),
            Attribute::If(inner) | Attribute::Elif(inner) => {
                put_expression(inner, Kind::Unknown, found)
            }
            Attribute::WorkgroupSize(inner) => {
                inner.z.put_names(found)?;
                inner.y.put_names(found)?;
                inner.x.put_names(found)
            }
            Attribute::TypeConstraint(inner) => {
                inner.variants.put_names(found)?;
                found.put(Occurrence::Use(inner.ident.name()))
            }
            Attribute::Custom(inner) => put_unknown(&inner.arguments, found),
            Attribute::Builtin(_)
            | Attribute::Const
            | Attribute::Invariant
            | Attribute::MustUse
            | Attribute::Vertex
            | Attribute::Fragment
            | Attribute::Compute
            | Attribute::Else
            | Attribute::Diagnostic(_)
            | Attribute::Interpolate(_) => Ok(()),
        }
    }
}
