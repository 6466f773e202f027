//! Written by tools/tables/attribute_code.py from crates/wgsl_model/nodes: attributes.

ghost use Rattle.std.specs.Prelude.{Some};
ghost use Rattle.wgsl_tree_attribute.specs.View.{attribute_view};
ghost use Rattle.wgsl_model.specs.Printed.Attributes.{print_attribute};

use crate::custom::{CustomAttribute, write_custom};
use crate::diagnostic::{DiagnosticAttribute, write_diagnostic};
use crate::interpolate::{InterpolateAttribute, write_interpolate};
use crate::type_constraint::TypeConstraint;
use crate::workgroup_size::{WorkgroupSizeAttribute, write_workgroup_size};
use std::fmt;
use std::fmt::Write;
use wgsl_span::Spanned;
use wgsl_tree_expression::ExpressionNode;
use wgsl_tree_words::BuiltinValue;

/// An attribute, as `@align(4)`.
#[derive(PartialEq, Debug, Drop)]
pub enum Attribute {
    Align(ExpressionNode),
    Binding(ExpressionNode),
    BlendSrc(ExpressionNode),
    Group(ExpressionNode),
    Id(ExpressionNode),
    Location(ExpressionNode),
    Size(ExpressionNode),
    If(ExpressionNode),
    Elif(ExpressionNode),
    Builtin(BuiltinValue),
    Const,
    Invariant,
    MustUse,
    Vertex,
    Fragment,
    Compute,
    Else,
    Diagnostic(DiagnosticAttribute),
    Interpolate(InterpolateAttribute),
    WorkgroupSize(WorkgroupSizeAttribute),
    TypeConstraint(TypeConstraint),
    Custom(CustomAttribute),
}

/// An attribute and where it is.
pub type AttributeNode = Spanned<Attribute>;

/// The attributes of a node, in the order of the text.
pub type Attributes = Vec<AttributeNode>;

impl fmt::Display for Attribute {
    ghost output = { λ attribute. Some (print_attribute (attribute_view attribute)) };

    fn fmt<W: fmt::Write>(&self, f: &mut fmt::Formatter<W>) -> fmt::Result {
        match self {
            Attribute::Align(argument) => write!(f, "@align({argument})"),
            Attribute::Binding(argument) => write!(f, "@binding({argument})"),
            Attribute::BlendSrc(argument) => write!(f, "@blend_src({argument})"),
            Attribute::Group(argument) => write!(f, "@group({argument})"),
            Attribute::Id(argument) => write!(f, "@id({argument})"),
            Attribute::Location(argument) => write!(f, "@location({argument})"),
            Attribute::Size(argument) => write!(f, "@size({argument})"),
            Attribute::If(argument) => write!(f, "@if({argument})"),
            Attribute::Elif(argument) => write!(f, "@elif({argument})"),
            Attribute::Builtin(argument) => write!(f, "@builtin({argument})"),
            Attribute::Const => f.write_str("@const"),
            Attribute::Invariant => f.write_str("@invariant"),
            Attribute::MustUse => f.write_str("@must_use"),
            Attribute::Vertex => f.write_str("@vertex"),
            Attribute::Fragment => f.write_str("@fragment"),
            Attribute::Compute => f.write_str("@compute"),
            Attribute::Else => f.write_str("@else"),
            Attribute::Diagnostic(inner) => write_diagnostic(inner, f),
            Attribute::Interpolate(inner) => write_interpolate(inner, f),
            Attribute::WorkgroupSize(inner) => write_workgroup_size(inner, f),
            Attribute::TypeConstraint(argument) => write!(f, "@type({argument})"),
            Attribute::Custom(inner) => write_custom(inner, f),
        }
    }
}
