//! Written by tools/tables/attribute_code.py from crates/wgsl_model/nodes: packed attributes.

ghost use Rattle.std.specs.Prelude.{◌≡◌, ◌++◌, OnOk};
ghost use Rattle.wgsl_model_packed.specs.Attributes.{packed_attribute};
ghost use Rattle.wgsl_tree_attribute.specs.View.{attribute_view};

use crate::attribute::{
    pack_custom, pack_diagnostic, pack_interpolate, pack_type_constraint, pack_with_argument,
    pack_workgroup_size,
};
use crate::rules::{BUILTIN, TYPE_ATTRIBUTE, WITHOUT_ARGUMENT};
use crate::text::{pack_rule, pack_word};
use crate::words::builtin_value_word;
use std::alloc::AllocError;
use wgsl_tree_attribute::Attribute;

/// Writes the packed form of an attribute.
pub fn pack_attribute(attribute: &Attribute, out: &mut Vec<u8>) -> Result<(), AllocError>
    ensures { OnOk result (out.new.items
        ≡ out.old.items ++ packed_attribute (attribute_view attribute.now)) }
{
    match attribute {
        Attribute::Align(argument) => pack_with_argument("align", argument, out),
        Attribute::Binding(argument) => pack_with_argument("binding", argument, out),
        Attribute::BlendSrc(argument) => pack_with_argument("blend_src", argument, out),
        Attribute::Group(argument) => pack_with_argument("group", argument, out),
        Attribute::Id(argument) => pack_with_argument("id", argument, out),
        Attribute::Location(argument) => pack_with_argument("location", argument, out),
        Attribute::Size(argument) => pack_with_argument("size", argument, out),
        Attribute::If(argument) => pack_with_argument("if", argument, out),
        Attribute::Elif(argument) => pack_with_argument("elif", argument, out),
        Attribute::Builtin(value) => pack_word(BUILTIN, builtin_value_word(*value), out),
        Attribute::Const => pack_word(WITHOUT_ARGUMENT, "const", out),
        Attribute::Invariant => pack_word(WITHOUT_ARGUMENT, "invariant", out),
        Attribute::MustUse => pack_word(WITHOUT_ARGUMENT, "must_use", out),
        Attribute::Vertex => pack_word(WITHOUT_ARGUMENT, "vertex", out),
        Attribute::Fragment => pack_word(WITHOUT_ARGUMENT, "fragment", out),
        Attribute::Compute => pack_word(WITHOUT_ARGUMENT, "compute", out),
        Attribute::Else => pack_word(WITHOUT_ARGUMENT, "else", out),
        Attribute::Diagnostic(inner) => pack_diagnostic(inner, out),
        Attribute::Interpolate(inner) => pack_interpolate(inner, out),
        Attribute::WorkgroupSize(inner) => pack_workgroup_size(inner, out),
        Attribute::TypeConstraint(inner) => {
            pack_rule(TYPE_ATTRIBUTE, out)?;
            pack_type_constraint(inner, out)
        }
        Attribute::Custom(inner) => pack_custom(inner, out),
    }
}
