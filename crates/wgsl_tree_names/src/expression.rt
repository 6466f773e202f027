//! Expressions and types.

ghost use Rattle.std.specs.Prelude.{IfOk};
ghost use Rattle.std.specs.Option.{option_map};
ghost use Rattle.wgsl_model_names.specs.Names.{each, maybe, names_in, names_in_call, names_in_type};
ghost use Rattle.wgsl_model_names.specs.Scopes.{unknown};
ghost use Rattle.wgsl_tree_attribute.specs.View.{expressions_view};
ghost use Rattle.wgsl_tree_expression.specs.View.{expression_node_view, function_call_view, type_expression_view};
ghost use Rattle.wgsl_tree_names.specs.Found.{kind_view, Collects};

use crate::collected::{Collected, Kind};
use std::alloc::AllocError;
use wgsl_tree_expression::{Expression, ExpressionNode, FunctionCall, TypeExpression};

/// Puts the names of an expression, each of a kind, before the others. What is on its left side
/// comes last, so a loop goes on to it.
#[cycle(expressions)]
pub(crate) fn put_expression<'t>(
    top: &'t ExpressionNode,
    kind: Kind,
    found: &mut Collected<'t>,
) -> Result<(), AllocError>
    ensures { IfOk result (λ _. Collects
        (names_in (kind_view kind) (expression_node_view top.now))
        found.old found.new) }
{
    let mut node = top.node();
    'left: loop {
        match node {
            Expression::Literal(_) => return Ok(()),
            Expression::Parenthesized(inner) => node = inner.expression.node(),
            Expression::NamedComponent(inner) => node = inner.base.node(),
            Expression::Indexing(inner) => {
                put_expression(&inner.index, kind, found)?;
                node = inner.base.node();
            }
            Expression::Unary(inner) => node = inner.operand.node(),
            Expression::Binary(inner) => {
                put_expression(&inner.right, kind, found)?;
                node = inner.left.node();
            }
            Expression::FunctionCall(inner) => return put_call(inner, kind, found),
            Expression::TypeOrIdentifier(inner) => return put_type(inner, kind, found),
        }
    }
}

/// Puts the names of a call, each of a kind, before the others.
#[cycle(expressions)]
#[tactic(auto, using(crate::proofs::Views::call_before))]
pub(crate) fn put_call<'t>(
    call: &'t FunctionCall,
    kind: Kind,
    found: &mut Collected<'t>,
) -> Result<(), AllocError>
    ensures { IfOk result (λ _. Collects
        (names_in_call (kind_view kind) (function_call_view call.now))
        found.old found.new) }
{
    'arguments: for i in (0..call.arguments.len()).rev() {
        put_expression(&call.arguments[i], kind, found)?;
    }
    put_type(&call.ty, kind, found)
}

/// Puts the names of a type or an identifier, each of a kind, before the others.
#[cycle(expressions)]
pub(crate) fn put_type<'t>(
    ty: &'t TypeExpression,
    kind: Kind,
    found: &mut Collected<'t>,
) -> Result<(), AllocError>
    ensures { IfOk result (λ _. Collects
        (names_in_type (kind_view kind) (type_expression_view ty.now))
        found.old found.new) }
{
    if let Some(arguments) = &ty.template_args {
        'arguments: for i in (0..arguments.len()).rev() {
            put_expression(&arguments[i].expression, kind, found)?;
        }
    }
    found.put_name(kind, ty.ident.name())
}

/// Puts the names in the arguments of an attribute, if it has a list of them, before the others. It
/// is not known what they refer to.
pub(crate) fn put_unknown<'t>(
    arguments: &'t Option<Vec<ExpressionNode>>,
    found: &mut Collected<'t>,
) -> Result<(), AllocError>
    ensures { IfOk result (λ _. Collects
        (maybe (each (names_in unknown)) (option_map expressions_view arguments.now))
        found.old found.new) }
{
    if let Some(arguments) = arguments {
        'arguments: for i in (0..arguments.len()).rev() {
            put_expression(&arguments[i], Kind::Unknown, found)?;
        }
    }
    Ok(())
}
