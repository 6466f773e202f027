//! What attributes make of their arguments (WGSL, "Attributes").
#![tactic(auto, unfolding(crate::proofs::Hints::definitions), using(crate::proofs::Hints::lemmas))]

ghost use Rattle.std.specs.Prelude.{◌≡◌, ◌<◌, [], ◌∷◌, ◌++◌, Some, None, IfOk, IfSome, IsNone, option_map, map};
ghost use Rattle.wgsl_model.specs.Grammar.Checks.{builtin_attribute, diagnostic_attribute, interpolate_attribute, workgroup_size_attribute, type_attribute, variants, variants_in};
ghost use Rattle.wgsl_tree_expression.specs.View.{expression_view, type_expression_view};
ghost use Rattle.wgsl_tree_attribute.specs.View.{attribute_view, expressions_view, interpolate_view};
ghost use Rattle.wgsl_read_attribute.specs.Counted.{interpolation};
ghost use Rattle.wgsl_read_attribute.specs.Makes.{Makes};
ghost use Rattle.wgsl_read_attribute.specs.Variants.{variants_before, operands_before};

use crate::arguments::{Refusal, only_argument, two_arguments, up_to_three};
use crate::words::{
    name_alone, rule_name, word_builtin_value, word_interpolation_sampling,
    word_interpolation_type, word_severity,
};
use std::alloc::{AllocError, Global};
use wgsl_tree_attribute::{
    Attribute, DiagnosticAttribute, InterpolateAttribute, TypeConstraint, WorkgroupSizeAttribute,
};
use wgsl_tree_expression::{Expression, ExpressionNode, TypeExpression};
use wgsl_tree_words::BinaryOperator;

pub(crate) fn builtin(
    name: &'static str,
    arguments: Option<Vec<ExpressionNode>>,
) -> Result<Attribute, Refusal>
    ensures { Makes name.now attribute_view result
        (builtin_attribute (option_map expressions_view arguments)) }
{
    match word_builtin_value(only_argument(name, arguments)?) {
        Some(value) => Ok(Attribute::Builtin(value)),
        None => Err(Refusal::Arguments(name, "the argument is not a valid built-in value name")),
    }
}

pub(crate) fn diagnostic(
    alloc: Global,
    name: &'static str,
    arguments: Option<Vec<ExpressionNode>>,
) -> Result<Attribute, Refusal>
    ensures { Makes name.now attribute_view result
        (diagnostic_attribute (option_map expressions_view arguments)) }
{
    let (severity, rule) = two_arguments(name, arguments)?;
    let Some(severity) = word_severity(severity) else {
        return Err(Refusal::Arguments(name, "invalid arguments"));
    };
    match rule_name(alloc, rule)? {
        Some(rule) => Ok(Attribute::Diagnostic(DiagnosticAttribute { severity, rule })),
        None => Err(Refusal::Arguments(name, "invalid arguments")),
    }
}

pub(crate) fn interpolate(
    name: &'static str,
    arguments: Option<Vec<ExpressionNode>>,
) -> Result<Attribute, Refusal>
    ensures { Makes name.now attribute_view result
        (interpolate_attribute (option_map expressions_view arguments)) }
{
    match interpolation(arguments) {
        Some(interpolation) => Ok(Attribute::Interpolate(interpolation)),
        None => Err(Refusal::Arguments(name, "invalid arguments")),
    }
}

/// The type of an interpolation, and how it samples if that is said.
fn interpolation(arguments: Option<Vec<ExpressionNode>>) -> Option<InterpolateAttribute>
    ensures { option_map interpolate_view result
        ≡ interpolation (option_map expressions_view arguments) }
{
    let (ty, sampling, None) = up_to_three(arguments)? else {
        return None;
    };
    let ty = word_interpolation_type(ty)?;
    let sampling = match sampling {
        None => None,
        Some(sampling) => Some(word_interpolation_sampling(sampling)?),
    };
    Some(InterpolateAttribute { ty, sampling })
}

pub(crate) fn workgroup_size(
    name: &'static str,
    arguments: Option<Vec<ExpressionNode>>,
) -> Result<Attribute, Refusal>
    ensures { Makes name.now attribute_view result
        (workgroup_size_attribute (option_map expressions_view arguments)) }
{
    match up_to_three(arguments) {
        Some((x, y, z)) => Ok(Attribute::WorkgroupSize(WorkgroupSizeAttribute { x, y, z })),
        None => Err(Refusal::Arguments(name, "expected 1-3 arguments")),
    }
}

pub(crate) fn type_constraint(
    alloc: Global,
    name: &'static str,
    arguments: Option<Vec<ExpressionNode>>,
) -> Result<Attribute, Refusal>
    ensures { Makes name.now attribute_view result
        (type_attribute (option_map expressions_view arguments)) }
{
    let (ident, constraint) = two_arguments(name, arguments)?;
    let Some(ident) = name_alone(ident) else {
        return Err(Refusal::Arguments(name, "invalid first argument (type name)"));
    };
    match variants(alloc, constraint.into_inner())? {
        Some(variants) => Ok(Attribute::TypeConstraint(TypeConstraint { ident, variants })),
        None => Err(Refusal::Arguments(name, "invalid second argument (type constraint)")),
    }
}

/// The types that an expression joins by `|`, from the left.
fn variants(
    alloc: Global,
    expression: Expression,
) -> Result<Option<Vec<TypeExpression>>, AllocError>
    ensures { IfOk result (λ types. option_map (λ list. map type_expression_view list.items) types
        ≡ variants_in (expression_view expression)) }
{
    let mut types = Vec::new(alloc);
    let mut rest = Some(expression);
    'types: while let Some(joined) = rest {
        let Some((front, ty)) = last_variant(joined) else {
            return Ok(None);
        };
        types.push(ty)?;
        rest = front;
    }
    types.reverse();
    Ok(Some(types))
}

/// The last of the types that an expression joins by `|`, after what is before it.
fn last_variant(expression: Expression) -> Option<(Option<Expression>, TypeExpression)>
    ensures some { IfSome result (λ parts. variants_in (expression_view expression)
        ≡ option_map (λ front. front ++ (type_expression_view parts.1 ∷ []))
        (variants_before (option_map expression_view parts.0))) }
    ensures none { IsNone result → variants_in (expression_view expression) ≡ None }
    ensures shorter { IfSome result (λ parts. operands_before (option_map expression_view parts.0)
        < operands_before (Some (expression_view expression))) }
{
    match expression {
        Expression::TypeOrIdentifier(ty) => Some((None, ty)),
        Expression::Binary(inner) => {
            let (left, operator, right) = inner.into_parts();
            match right.into_inner() {
                Expression::TypeOrIdentifier(ty) if operator == BinaryOperator::BitwiseOr => {
                    Some((Some(left.into_inner()), ty))
                }
                _ => None,
            }
        }
        _ => None,
    }
}
