//! Attributes of other names.

ghost use Rattle.wgsl_tree_attribute.specs.View.{custom_view, expressions_view};
ghost use Rattle.std.specs.Option.{option_map};
ghost use Rattle.std.specs.Fmt.{WritesOnOk};
ghost use Rattle.wgsl_model.specs.Printed.Attributes.{print_custom, print_arguments};

use std::fmt;
use std::fmt::Write;
use wgsl_tree_expression::ExpressionNode;
use wgsl_writer::write_joined;

/// An attribute of another name, with its arguments if it has parentheses.
#[derive(PartialEq, Debug, Drop)]
pub struct CustomAttribute {
    pub name: String,
    pub arguments: Option<Vec<ExpressionNode>>,
}

pub(crate) fn write_custom<W: fmt::Write>(
    attribute: &CustomAttribute,
    f: &mut fmt::Formatter<W>,
) -> fmt::Result
    ensures { WritesOnOk W.write_str_gives f.old result
        (print_custom (custom_view attribute.now)) f.new }
{
    let name = &attribute.name;
    write!(f, "@{name}")?;
    write_arguments(&attribute.arguments, f)
}

/// Writes arguments in parentheses, if there is a list of them.
fn write_arguments<W: fmt::Write>(
    arguments: &Option<Vec<ExpressionNode>>,
    f: &mut fmt::Formatter<W>,
) -> fmt::Result
    ensures { WritesOnOk W.write_str_gives f.old result
        (print_arguments (option_map expressions_view arguments.now)) f.new }
{
    match arguments {
        None => Ok(()),
        Some(arguments) => {
            f.write_str("(")?;
            write_joined(arguments, ", ", f)?;
            f.write_str(")")
        }
    }
}
