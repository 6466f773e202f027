//! Attributes printed before what they are on.

ghost use Rattle.std.specs.Prelude.{Some};
ghost use Rattle.wgsl_model.specs.Printed.Attributes.{print_attributes};
ghost use Rattle.wgsl_tree_attribute.specs.View.{attributes_view};

use crate::attribute::AttributeNode;
use std::fmt;
use std::fmt::Write;
use wgsl_writer::write_joined;

/// Attributes with a space between each two, and an end after them if there are any.
#[derive(Drop)]
pub struct AttributesBefore<'a> {
    pub attributes: &'a [AttributeNode],
    pub end: &'a str,
}

impl fmt::Display for AttributesBefore<'_> {
    ghost output = { λ line. Some (print_attributes line.end.now (attributes_view line.attributes.now)) };

    fn fmt<W: fmt::Write>(&self, f: &mut fmt::Formatter<W>) -> fmt::Result {
        if self.attributes.is_empty() {
            return Ok(());
        }
        write_joined(self.attributes, " ", f)?;
        f.write_str(self.end)
    }
}
