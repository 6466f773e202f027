//! Expressions but for their left sides, calls and types.

ghost use Rattle.std.specs.Prelude.{◌≡◌, IfOk};
ghost use Rattle.wgsl_model_names.specs.Renamed.{renamed_call, renamed_type};
ghost use Rattle.wgsl_tree_expression.specs.View.{function_call_view, type_expression_view};
ghost use Rattle.wgsl_tree_renamed.specs.Lefts.{IsRenamed};
ghost use Rattle.wgsl_tree_renamed.specs.NewNames.{renaming_by};

use crate::chain::renamed_node;
use crate::ident::renamed_ident;
use crate::new_names::NewNames;
use crate::surrounding::Surrounding;
use std::alloc::{AllocError, Global};
use wgsl_span::CloneWith;
use wgsl_tree_expression::{
    Expression, ExpressionNode, FunctionCall, ParenthesizedExpression, TemplateArg, TypeExpression,
    UnaryExpression,
};

/// A copy of an expression, or of what is around its left side, with the left side.
#[derive(Drop)]
pub(crate) enum Outermost<'a> {
    Whole(Expression),
    Around(Surrounding, &'a ExpressionNode),
}

/// A copy of an expression, but for what is on its left side.
#[cycle(expressions)]
pub(crate) fn renamed_outermost<'a>(
    expression: &'a Expression,
    names: &NewNames,
    alloc: Global,
) -> Result<Outermost<'a>, AllocError>
    ensures { IfOk result (λ outermost.
        IsRenamed (renaming_by names.now) expression.now outermost) }
{
    match expression {
        Expression::Literal(inner) => {
            let copy = inner.clone_with(alloc)?;
            Ok(Outermost::Whole(Expression::Literal(copy)))
        }
        Expression::Parenthesized(inner) => {
            let expression = renamed_node(&inner.expression, names, alloc)?;
            let copy = ParenthesizedExpression { expression };
            Ok(Outermost::Whole(Expression::Parenthesized(copy)))
        }
        Expression::NamedComponent(inner) => {
            let component = inner.component.clone_with(alloc)?;
            Ok(Outermost::Around(Surrounding::Component(component), &inner.base))
        }
        Expression::Indexing(inner) => {
            let index = renamed_node(&inner.index, names, alloc)?;
            Ok(Outermost::Around(Surrounding::Index(index), &inner.base))
        }
        Expression::Unary(inner) => {
            let operand = renamed_node(&inner.operand, names, alloc)?;
            let copy = UnaryExpression {
                operator: inner.operator,
                operand,
            };
            Ok(Outermost::Whole(Expression::Unary(copy)))
        }
        Expression::Binary(inner) => {
            let right = renamed_node(&inner.right, names, alloc)?;
            let surrounding = Surrounding::Operation(inner.operator, right);
            Ok(Outermost::Around(surrounding, &inner.left))
        }
        Expression::FunctionCall(inner) => {
            let copy = renamed_call(inner, names, alloc)?;
            Ok(Outermost::Whole(Expression::FunctionCall(copy)))
        }
        Expression::TypeOrIdentifier(inner) => {
            let copy = renamed_type(inner, names, alloc)?;
            Ok(Outermost::Whole(Expression::TypeOrIdentifier(copy)))
        }
    }
}

/// A copy of a call.
#[cycle(expressions)]
pub(crate) fn renamed_call(
    call: &FunctionCall,
    names: &NewNames,
    alloc: Global,
) -> Result<FunctionCall, AllocError>
    ensures { IfOk result (λ copy. function_call_view copy
        ≡ renamed_call (renaming_by names.now) (function_call_view call.now)) }
{
    let ty = renamed_type(&call.ty, names, alloc)?;
    let mut arguments = Vec::new(alloc);
    'arguments: for argument in &call.arguments {
        arguments.push(renamed_node(argument, names, alloc)?)?;
    }
    Ok(FunctionCall { ty, arguments })
}

/// A copy of a type or an identifier.
#[cycle(expressions)]
pub(crate) fn renamed_type(
    ty: &TypeExpression,
    names: &NewNames,
    alloc: Global,
) -> Result<TypeExpression, AllocError>
    ensures { IfOk result (λ copy. type_expression_view copy
        ≡ renamed_type (renaming_by names.now) (type_expression_view ty.now)) }
{
    let ident = renamed_ident(&ty.ident, names, alloc)?;
    let Some(template_args) = &ty.template_args else {
        return Ok(TypeExpression::new(ident));
    };
    let mut arguments = Vec::new(alloc);
    'arguments: for argument in template_args {
        let expression = renamed_node(&argument.expression, names, alloc)?;
        arguments.push(TemplateArg { expression })?;
    }
    Ok(TypeExpression {
        ident,
        template_args: Some(arguments),
    })
}
