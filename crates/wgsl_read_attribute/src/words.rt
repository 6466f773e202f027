//! Names alone, which are identifiers without a template, and the values that they name.
#![tactic(auto, unfolding(crate::proofs::Hints::definitions), using(crate::proofs::Hints::lemmas))]

ghost use Rattle.std.specs.Prelude.{◌≡◌, IfOk, option_map, string_bytes};
ghost use Rattle.wgsl_model.specs.Trees.NamedValues.{severities, access_modes, address_spaces, interpolation_types, interpolation_samplings, builtin_values};
ghost use Rattle.wgsl_model.specs.Grammar.Checks.{untemplated_name, untemplated_word, rule_name};
ghost use Rattle.wgsl_tree_words.specs.View.{severity_view, access_mode_view, address_space_view, interpolation_type_view, interpolation_sampling_view, builtin_value_view};
ghost use Rattle.wgsl_tree_expression.specs.View.{ident_name, expression_node_view};

use std::alloc::{AllocError, Global};
use wgsl_tree_expression::{Expression, ExpressionNode, Ident, TypeExpression};
use wgsl_tree_words::{
    AccessMode, AddressSpace, BuiltinValue, DiagnosticSeverity, InterpolationSampling,
    InterpolationType,
};

/// The name that an expression is, without a template.
pub(crate) fn name_alone(expression: ExpressionNode) -> Option<Ident>
    ensures { option_map ident_name result ≡ untemplated_name (expression_node_view expression) }
{
    match expression.into_inner() {
        Expression::TypeOrIdentifier(
            TypeExpression {
                ident,
                template_args: None,
            },
        ) => Some(ident),
        _ => None,
    }
}

/// The name of a diagnostic rule: one alone, or two with a `.` between.
pub(crate) fn rule_name(
    alloc: Global,
    expression: ExpressionNode,
) -> Result<Option<String>, AllocError>
    ensures { IfOk result (λ rule.
        option_map string_bytes rule ≡ rule_name (expression_node_view expression)) }
{
    match expression.into_inner() {
        Expression::NamedComponent(inner) => {
            let (base, component) = inner.into_parts();
            match name_alone(base) {
                Some(base) => Ok(Some(format!(in alloc; "{base}.{component}")?)),
                None => Ok(None),
            }
        }
        Expression::TypeOrIdentifier(
            TypeExpression {
                ident,
                template_args: None,
            },
        ) => Ok(Some(String::from_str(alloc, ident.name())?)),
        _ => Ok(None),
    }
}

pub(crate) fn word_severity(expression: ExpressionNode) -> Option<DiagnosticSeverity>
    ensures { option_map severity_view result
        ≡ untemplated_word severities (expression_node_view expression) }
{
    DiagnosticSeverity::from_str(name_alone(expression)?.name()).ok()
}

/// Returns the access mode whose name an expression is, without a template.
pub fn word_access_mode(expression: ExpressionNode) -> Option<AccessMode>
    ensures { option_map access_mode_view result
        ≡ untemplated_word access_modes (expression_node_view expression) }
{
    AccessMode::from_str(name_alone(expression)?.name()).ok()
}

/// Returns the address space whose name an expression is, without a template.
pub fn word_address_space(expression: ExpressionNode) -> Option<AddressSpace>
    ensures { option_map address_space_view result
        ≡ untemplated_word address_spaces (expression_node_view expression) }
{
    AddressSpace::from_str(name_alone(expression)?.name()).ok()
}

pub(crate) fn word_interpolation_type(expression: ExpressionNode) -> Option<InterpolationType>
    ensures { option_map interpolation_type_view result
        ≡ untemplated_word interpolation_types (expression_node_view expression) }
{
    InterpolationType::from_str(name_alone(expression)?.name()).ok()
}

pub(crate) fn word_interpolation_sampling(
    expression: ExpressionNode,
) -> Option<InterpolationSampling>
    ensures { option_map interpolation_sampling_view result
        ≡ untemplated_word interpolation_samplings (expression_node_view expression) }
{
    InterpolationSampling::from_str(name_alone(expression)?.name()).ok()
}

pub(crate) fn word_builtin_value(expression: ExpressionNode) -> Option<BuiltinValue>
    ensures { option_map builtin_value_view result
        ≡ untemplated_word builtin_values (expression_node_view expression) }
{
    BuiltinValue::from_str(name_alone(expression)?.name()).ok()
}
