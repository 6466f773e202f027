//! Written by tools/tables/attribute_code.py from crates/wgsl_model/nodes: the attribute of each name.

ghost use Rattle.std.specs.Prelude.{option_map};
ghost use Rattle.wgsl_tree_attribute.specs.View.{attribute_view, expressions_view};
ghost use Rattle.wgsl_read_cursor.specs.Words.{word_text};
ghost use Rattle.wgsl_read_attribute.specs.Known.{checked_attribute};
ghost use Rattle.wgsl_read_attribute.specs.Makes.{Makes};

use crate::arguments::{Refusal, no_arguments, only_argument};
use crate::checks::{builtin, diagnostic, interpolate, type_constraint, workgroup_size};
use std::alloc::Global;
use wgsl_read_cursor::Word;
use wgsl_tree_attribute::{Attribute, CustomAttribute};
use wgsl_tree_expression::ExpressionNode;

/// The attribute that a name makes of its arguments. One that is not known keeps them as they are.
#[tactic(auto, unfolding(crate::proofs::Hints::making), using(crate::proofs::Hints::lemmas))]
pub(crate) fn make_attribute(
    alloc: Global,
    name: Word,
    arguments: Option<Vec<ExpressionNode>>,
) -> Result<Attribute, Refusal>
    ensures { Makes (word_text name) attribute_view result
        (checked_attribute (word_text name) (option_map expressions_view arguments)) }
{
    match name.as_str() {
        "align" => Ok(Attribute::Align(only_argument("align", arguments)?)),
        "binding" => Ok(Attribute::Binding(only_argument("binding", arguments)?)),
        "blend_src" => Ok(Attribute::BlendSrc(only_argument("blend_src", arguments)?)),
        "group" => Ok(Attribute::Group(only_argument("group", arguments)?)),
        "id" => Ok(Attribute::Id(only_argument("id", arguments)?)),
        "location" => Ok(Attribute::Location(only_argument("location", arguments)?)),
        "size" => Ok(Attribute::Size(only_argument("size", arguments)?)),
        "if" => Ok(Attribute::If(only_argument("if", arguments)?)),
        "elif" => Ok(Attribute::Elif(only_argument("elif", arguments)?)),
        "builtin" => builtin("builtin", arguments),
        "const" => no_arguments("const", arguments, Attribute::Const),
        "invariant" => no_arguments("invariant", arguments, Attribute::Invariant),
        "must_use" => no_arguments("must_use", arguments, Attribute::MustUse),
        "vertex" => no_arguments("vertex", arguments, Attribute::Vertex),
        "fragment" => no_arguments("fragment", arguments, Attribute::Fragment),
        "compute" => no_arguments("compute", arguments, Attribute::Compute),
        "else" => no_arguments("else", arguments, Attribute::Else),
        "diagnostic" => diagnostic(alloc, "diagnostic", arguments),
        "interpolate" => interpolate("interpolate", arguments),
        "workgroup_size" => workgroup_size("workgroup_size", arguments),
        "type" => type_constraint(alloc, "type", arguments),
        _ => Ok(Attribute::Custom(CustomAttribute {
            name: name.into_string(alloc)?,
            arguments,
        })),
    }
}
