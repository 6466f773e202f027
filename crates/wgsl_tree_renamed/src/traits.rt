//! What is copied with new names.

ghost use Rattle.std.specs.Prelude.{◌≡◌, IfOk, List, Option, map};
ghost use Rattle.std.specs.Option.{option_map};
ghost use Rattle.wgsl_model.specs.Trees.Expressions as plain;
ghost use Rattle.wgsl_model.specs.Trees.Spanned as plain_spanned;
ghost use Rattle.wgsl_model_names.specs.Renamed.{Renaming, renamed_node, renamed_spanned};
ghost use Rattle.wgsl_model_names.specs.Renamed.{renamed_type};
ghost use Rattle.wgsl_span.specs.View.{spanned_view};
ghost use Rattle.wgsl_tree_expression.specs.View.{expression_node_view, type_expression_view};
ghost use Rattle.wgsl_tree_renamed.specs.NewNames.{renaming_by};

use crate::chain::renamed_node;
use crate::expression::renamed_type;
use crate::new_names::NewNames;
use std::alloc::{AllocError, Global};
use wgsl_span::Spanned;
use wgsl_tree_expression::{ExpressionNode, TypeExpression};

/// A part of a tree that is copied with new names.
pub(crate) trait Rename: Sized + Drop {
    ghost Plain: { Type 0 };

    ghost view: { Self → Plain };

    ghost changed: { Renaming → Plain → Plain };

    /// Returns a copy with new names, unless allocation fails.
    fn renamed(&self, names: &NewNames, alloc: Global) -> Result<Self, AllocError>
        ensures { IfOk result (λ copy.
            view copy ≡ changed (renaming_by names.now) (view self.now)) };
}

impl Rename for ExpressionNode {
    ghost Plain = { plain.ExpressionNode };

    ghost view = { expression_node_view };

    ghost changed = { renamed_node };

    fn renamed(&self, names: &NewNames, alloc: Global) -> Result<Self, AllocError> {
        renamed_node(self, names, alloc)
    }
}

impl Rename for TypeExpression {
    ghost Plain = { plain.TypeExpression };

    ghost view = { type_expression_view };

    ghost changed = { renamed_type };

    fn renamed(&self, names: &NewNames, alloc: Global) -> Result<Self, AllocError> {
        renamed_type(self, names, alloc)
    }
}

impl<T: Rename> Rename for Option<T> {
    ghost Plain = { Option T.Plain };

    ghost view = { λ value. option_map T.view value };

    ghost changed = { λ f value. option_map (T.changed f) value };

    fn renamed(&self, names: &NewNames, alloc: Global) -> Result<Self, AllocError> {
        match self {
            None => Ok(None),
            Some(value) => Ok(Some(value.renamed(names, alloc)?)),
        }
    }
}

impl<T: Rename> Rename for Vec<T> {
    ghost Plain = { List T.Plain };

    ghost view = { λ items. map T.view items.items };

    ghost changed = { λ f items. map (T.changed f) items };

    fn renamed(&self, names: &NewNames, alloc: Global) -> Result<Self, AllocError> {
        let mut copies = Vec::with_capacity(alloc, self.len())?;
        'items: for item in self {
            copies.push(item.renamed(names, alloc)?)?;
        }
        Ok(copies)
    }
}

/// A copy of a node with new names, and its span.
pub(crate) fn renamed_spanned<T: Rename>(
    node: &Spanned<T>,
    names: &NewNames,
    alloc: Global,
) -> Result<Spanned<T>, AllocError>
    ensures { IfOk result (λ copy. spanned_view T.view copy
        ≡ renamed_spanned (T.changed (renaming_by names.now)) (spanned_view T.view node.now)) }
{
    Spanned::new(alloc, node.node().renamed(names, alloc)?, node.span())
}
