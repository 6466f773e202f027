//! Parts of a module that have names.

ghost use Rattle.std.specs.Prelude.{IfOk, List, Option, map};
ghost use Rattle.std.specs.Option.{option_map};
ghost use Rattle.wgsl_model.specs.Trees.Expressions as plain;
ghost use Rattle.wgsl_model_names.specs.Names.{each, maybe, node_names, type_names};
ghost use Rattle.wgsl_model_names.specs.Scopes.{Names};
ghost use Rattle.wgsl_tree_expression.specs.View.{expression_node_view, type_expression_view};
ghost use Rattle.wgsl_tree_names.specs.Found.{Collects};

use crate::collected::{Collected, Kind};
use crate::expression::{put_expression, put_type};
use std::alloc::AllocError;
use wgsl_tree_expression::{ExpressionNode, TypeExpression};

/// A part of a module that has names.
pub(crate) trait Named {
    ghost Plain: { Type 0 };

    ghost view: { Self → Plain };

    ghost names: { Plain → Names };

    /// Puts the names of the part before what was collected.
    fn put_names<'t>(&'t self, found: &mut Collected<'t>) -> Result<(), AllocError>
    where
        Self: Sized,
        ensures { IfOk result (λ _. Collects (names (view self.now)) found.old found.new) };
}

impl<T: Named> Named for Option<T> {
    ghost Plain = { Option T.Plain };

    ghost view = { λ part. option_map T.view part };

    ghost names = { λ part. maybe T.names part };

    fn put_names<'t>(&'t self, found: &mut Collected<'t>) -> Result<(), AllocError> {
        match self {
            None => Ok(()),
            Some(part) => part.put_names(found),
        }
    }
}

impl<T: Named> Named for Vec<T> {
    ghost Plain = { List T.Plain };

    ghost view = { λ parts. map T.view parts.items };

    ghost names = { λ parts. each T.names parts };

    fn put_names<'t>(&'t self, found: &mut Collected<'t>) -> Result<(), AllocError> {
        'parts: for i in (0..self.len()).rev() {
            self[i].put_names(found)?;
        }
        Ok(())
    }
}

impl Named for ExpressionNode {
    ghost Plain = { plain.ExpressionNode };

    ghost view = { expression_node_view };

    ghost names = { node_names };

    fn put_names<'t>(&'t self, found: &mut Collected<'t>) -> Result<(), AllocError> {
        put_expression(self, Kind::Use, found)
    }
}

impl Named for TypeExpression {
    ghost Plain = { plain.TypeExpression };

    ghost view = { type_expression_view };

    ghost names = { type_names };

    fn put_names<'t>(&'t self, found: &mut Collected<'t>) -> Result<(), AllocError> {
        put_type(self, Kind::Use, found)
    }
}
