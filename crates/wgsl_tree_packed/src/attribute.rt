//! Attributes.

ghost use Rattle.std.specs.Prelude.{◌≡◌, ◌++◌, ◌∷◌, OnOk};
ghost use Rattle.wgsl_model.specs.Trees.Attributes as plain;
ghost use Rattle.wgsl_model.specs.Trees.NamedValues as plain_values;
ghost use Rattle.wgsl_model.specs.Trees.Spanned.{Spanned};
ghost use Rattle.wgsl_model_packed.specs.Attributes.{packed_attribute, packed_attribute_line, packed_attribute_node, packed_attributes_before, packed_sampling, packed_type_constraint};
ghost use Rattle.wgsl_model_packed.specs.Expressions.{packed_expression_node};
ghost use Rattle.wgsl_model_packed.specs.Printing.{packed_text};
ghost use Rattle.wgsl_model_packed.specs.Rules.{with_argument_rule};
ghost use Rattle.wgsl_span.specs.View.{spanned_view};
ghost use Rattle.wgsl_tree_attribute.specs.View.{attribute_view, attributes_view, custom_view, diagnostic_view, interpolate_view, type_constraint_view, workgroup_size_view};
ghost use Rattle.wgsl_tree_expression.specs.View.{expression_node_view};
ghost use Rattle.wgsl_tree_words.specs.View.{interpolation_sampling_view};

use crate::attribute_nodes::pack_attribute;
use crate::expression::pack_expression_node;
use crate::rules::{
    ARGUMENTS, ATTRIBUTES, ATTRIBUTES_LINE, ATTRIBUTES_SPACE, CUSTOM, DIAGNOSTIC, FURTHER_NODE,
    FURTHER_WORD, INTERPOLATE, NODE, NODES, NOTHING, PART, TYPE_CONSTRAINT, TYPES, WITH_ARGUMENT,
    WORKGROUP_SIZE,
};
use crate::text::{pack_rule, pack_span, pack_text, pack_word};
use crate::traits::{Pack, pack_list, pack_optional};
use crate::words::{interpolation_sampling_word, interpolation_type_word, severity_word};
use std::alloc::AllocError;
use wgsl_tree_attribute::{
    AttributeNode, Attributes, CustomAttribute, DiagnosticAttribute, InterpolateAttribute,
    TypeConstraint, WorkgroupSizeAttribute,
};
use wgsl_tree_expression::ExpressionNode;
use wgsl_tree_words::InterpolationSampling;

/// Writes attributes on a line of their own.
pub fn pack_attribute_line(attributes: &Attributes, out: &mut Vec<u8>) -> Result<(), AllocError>
    ensures { OnOk result (out.new.items
        ≡ out.old.items ++ packed_attribute_line (attributes_view attributes.now.items)) }
{
    pack_list(NOTHING, ATTRIBUTES, ATTRIBUTES_LINE, attributes, out)
}

/// Writes the number of a rule, and attributes on a line of their own.
pub fn pack_attributed(
    rule: u8,
    attributes: &Attributes,
    out: &mut Vec<u8>,
) -> Result<(), AllocError>
    ensures { OnOk result (out.new.items
        ≡ out.old.items ++ (rule ∷ packed_attribute_line (attributes_view attributes.now.items))) }
{
    pack_rule(rule, out)?;
    pack_attribute_line(attributes, out)
}

/// Writes attributes before what they are on.
pub fn pack_attributes_before(attributes: &Attributes, out: &mut Vec<u8>) -> Result<(), AllocError>
    ensures { OnOk result (out.new.items
        ≡ out.old.items ++ packed_attributes_before (attributes_view attributes.now.items)) }
{
    pack_list(NOTHING, ATTRIBUTES, ATTRIBUTES_SPACE, attributes, out)
}

impl Pack for AttributeNode {
    ghost Plain = { Spanned plain.Attribute };

    ghost view = { spanned_view attribute_view };

    ghost packed = { packed_attribute_node };

    fn pack(&self, out: &mut Vec<u8>) -> Result<(), AllocError> {
        pack_span(self.span(), out)?;
        pack_attribute(self.node(), out)
    }
}

impl Pack for InterpolationSampling {
    ghost Plain = { plain_values.InterpolationSampling };

    ghost view = { interpolation_sampling_view };

    ghost packed = { packed_sampling };

    fn pack(&self, out: &mut Vec<u8>) -> Result<(), AllocError> {
        pack_text(interpolation_sampling_word(*self), out)
    }
}

/// Writes an attribute with an expression, by its name.
pub fn pack_with_argument(
    name: &str,
    argument: &ExpressionNode,
    out: &mut Vec<u8>,
) -> Result<(), AllocError>
    ensures { OnOk result (out.new.items ≡ out.old.items ++ (with_argument_rule
        ∷ (packed_text name.now ++ packed_expression_node (expression_node_view argument.now)))) }
{
    pack_word(WITH_ARGUMENT, name, out)?;
    pack_expression_node(argument, out)
}

/// Writes a `@diagnostic`.
pub fn pack_diagnostic(node: &DiagnosticAttribute, out: &mut Vec<u8>) -> Result<(), AllocError>
    ensures { OnOk result (out.new.items
        ≡ out.old.items ++ packed_attribute (plain.diagnostic (diagnostic_view node.now))) }
{
    pack_word(DIAGNOSTIC, severity_word(node.severity), out)?;
    pack_text(node.rule.as_str(), out)
}

/// Writes an `@interpolate`.
pub fn pack_interpolate(node: &InterpolateAttribute, out: &mut Vec<u8>) -> Result<(), AllocError>
    ensures { OnOk result (out.new.items
        ≡ out.old.items ++ packed_attribute (plain.interpolate (interpolate_view node.now))) }
{
    pack_word(INTERPOLATE, interpolation_type_word(node.ty), out)?;
    pack_optional(FURTHER_WORD, &node.sampling, out)
}

/// Writes a `@workgroup_size`.
pub fn pack_workgroup_size(
    node: &WorkgroupSizeAttribute,
    out: &mut Vec<u8>,
) -> Result<(), AllocError>
    ensures { OnOk result (out.new.items
        ≡ out.old.items ++ packed_attribute (plain.workgroup_size (workgroup_size_view node.now))) }
{
    pack_rule(WORKGROUP_SIZE, out)?;
    pack_expression_node(&node.x, out)?;
    pack_optional(FURTHER_NODE, &node.y, out)?;
    pack_optional(FURTHER_NODE, &node.z, out)
}

/// Writes a name, and the types that it may be.
pub fn pack_type_constraint(node: &TypeConstraint, out: &mut Vec<u8>) -> Result<(), AllocError>
    ensures { OnOk result (out.new.items
        ≡ out.old.items ++ packed_type_constraint (type_constraint_view node.now)) }
{
    pack_word(TYPE_CONSTRAINT, node.ident.name(), out)?;
    pack_list(NOTHING, TYPES, PART, &node.variants, out)
}

/// Writes an attribute of another name.
pub fn pack_custom(node: &CustomAttribute, out: &mut Vec<u8>) -> Result<(), AllocError>
    ensures { OnOk result (out.new.items
        ≡ out.old.items ++ packed_attribute (plain.custom (custom_view node.now))) }
{
    pack_word(CUSTOM, node.name.as_str(), out)?;
    match &node.arguments {
        None => pack_rule(NOTHING, out),
        Some(arguments) => {
            pack_rule(ARGUMENTS, out)?;
            pack_list(NOTHING, NODES, NODE, arguments, out)
        }
    }
}
