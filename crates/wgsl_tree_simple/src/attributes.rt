//! The lists of attributes that statements have: their copies, and the lines that they are printed on.

ghost use Rattle.std.specs.Prelude.{◌≡◌, IfOk};
ghost use Rattle.std.specs.Fmt.{WritesOnOk};
ghost use Rattle.wgsl_model.specs.Printed.Attributes.{print_attribute_line};
ghost use Rattle.wgsl_writer.specs.Writing.{WritesInto};
ghost use Rattle.wgsl_tree_attribute.specs.View.{attributes_view};

use std::alloc::{AllocError, Global};
use std::fmt;
use std::fmt::Write;
use wgsl_span::CloneWith;
use wgsl_tree_attribute::{Attributes, AttributesBefore};
use wgsl_writer::Indented;

/// Returns a copy of a list of attributes, unless allocation fails.
pub fn clone_attributes(attributes: &Attributes, alloc: Global) -> Result<Attributes, AllocError>
    ensures { IfOk result (λ copy.
        attributes_view copy.items ≡ attributes_view attributes.now.items) }
{
    attributes.clone_with(alloc)
}

/// Writes attributes on a line of their own.
pub fn write_attributes<W: fmt::Write>(
    attributes: &Attributes,
    f: &mut fmt::Formatter<W>,
) -> fmt::Result
    ensures { WritesOnOk W.write_str_gives f.old result
        (print_attribute_line (attributes_view attributes.now.items)) f.new }
{
    let line = AttributesBefore {
        attributes,
        end: "\n",
    };
    write!(f, "{line}")
}

/// Writes attributes on a line of their own, into a writer that indents.
pub fn write_attribute_line<W: fmt::Write>(
    attributes: &Attributes,
    out: &mut Indented<'_, W>,
) -> fmt::Result
    ensures { WritesInto W.write_str_gives out.old result
        (print_attribute_line (attributes_view attributes.now.items)) out.new }
{
    let list = attributes.as_slice();
    if list.is_empty() {
        return Ok(());
    }
    let line = AttributesBefore {
        attributes: list,
        end: "",
    };
    out.write_value(&line)?;
    out.write_line_end()
}
