//! How a value is interpolated.

ghost use Rattle.wgsl_tree_attribute.specs.View.{interpolate_view};
ghost use Rattle.std.specs.Fmt.{WritesOnOk};
ghost use Rattle.wgsl_model.specs.Printed.Attributes.{print_interpolate};

use std::fmt;
use std::fmt::Write;
use wgsl_tree_words::{InterpolationSampling, InterpolationType};

/// The arguments of an `@interpolate` attribute.
#[derive(PartialEq, Debug, Drop)]
pub struct InterpolateAttribute {
    pub ty: InterpolationType,
    pub sampling: Option<InterpolationSampling>,
}

pub(crate) fn write_interpolate<W: fmt::Write>(
    attribute: &InterpolateAttribute,
    f: &mut fmt::Formatter<W>,
) -> fmt::Result
    ensures { WritesOnOk W.write_str_gives f.old result
        (print_interpolate (interpolate_view attribute.now)) f.new }
{
    let ty = attribute.ty;
    match attribute.sampling {
        None => write!(f, "@interpolate({ty})"),
        Some(sampling) => write!(f, "@interpolate({ty}, {sampling})"),
    }
}
