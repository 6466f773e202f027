//! The sizes of a workgroup.

ghost use Rattle.wgsl_tree_attribute.specs.View.{workgroup_size_view};
ghost use Rattle.std.specs.Option.{option_map};
ghost use Rattle.std.specs.Fmt.{WritesOnOk};
ghost use Rattle.wgsl_model.specs.Printed.Attributes.{print_workgroup_size, print_further};
ghost use Rattle.wgsl_tree_expression.specs.View.{expression_node_view};

use std::fmt;
use std::fmt::Write;
use wgsl_tree_expression::ExpressionNode;

/// The arguments of a `@workgroup_size` attribute.
#[derive(PartialEq, Debug, Drop)]
pub struct WorkgroupSizeAttribute {
    pub x: ExpressionNode,
    pub y: Option<ExpressionNode>,
    pub z: Option<ExpressionNode>,
}

pub(crate) fn write_workgroup_size<W: fmt::Write>(
    attribute: &WorkgroupSizeAttribute,
    f: &mut fmt::Formatter<W>,
) -> fmt::Result
    ensures { WritesOnOk W.write_str_gives f.old result
        (print_workgroup_size (workgroup_size_view attribute.now)) f.new }
{
    let x = &attribute.x;
    write!(f, "@workgroup_size({x}")?;
    write_further(&attribute.y, f)?;
    write_further(&attribute.z, f)?;
    f.write_str(")")
}

/// Writes a further argument, if there is one.
fn write_further<W: fmt::Write>(
    argument: &Option<ExpressionNode>,
    f: &mut fmt::Formatter<W>,
) -> fmt::Result
    ensures { WritesOnOk W.write_str_gives f.old result
        (print_further (option_map expression_node_view argument.now)) f.new }
{
    match argument {
        None => Ok(()),
        Some(argument) => write!(f, ", {argument}"),
    }
}
