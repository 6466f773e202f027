//! Directives that name extensions.

ghost use Rattle.std.specs.Prelude.{◌≡◌, IfOk, map, string_bytes, Some, ◌++◌, codes};
ghost use Rattle.wgsl_tree_unit.specs.View.{enable_directive_view, requires_directive_view};
ghost use Rattle.std.specs.Fmt.{WritesOnOk};
ghost use Rattle.wgsl_model.specs.Printed.Joining.{joined};
ghost use Rattle.wgsl_model.specs.Printed.Declarations.{print_attributed};
ghost use Rattle.wgsl_model.specs.Printed.Units.{print_enable, print_requires};

use std::alloc::{AllocError, Global};
use std::fmt;
use std::fmt::Write;
use wgsl_tree_attribute::Attributes;
use wgsl_tree_simple::write_attributes;
use wgsl_writer::write_joined;

/// An `enable` directive with the names of extensions.
#[derive(PartialEq, Debug, Drop)]
pub struct EnableDirective {
    pub attributes: Attributes,
    pub extensions: Vec<String>,
}

impl fmt::Display for EnableDirective {
    ghost output = { λ directive. Some (print_attributed print_enable (enable_directive_view directive)) };

    fn fmt<W: fmt::Write>(&self, f: &mut fmt::Formatter<W>) -> fmt::Result {
        write_attributes(&self.attributes, f)?;
        write_names("enable ", &self.extensions, f)
    }
}

/// A `requires` directive with the names of extensions.
#[derive(PartialEq, Debug, Drop)]
pub struct RequiresDirective {
    pub attributes: Attributes,
    pub extensions: Vec<String>,
}

impl fmt::Display for RequiresDirective {
    ghost output = { λ directive. Some (print_attributed print_requires (requires_directive_view directive)) };

    fn fmt<W: fmt::Write>(&self, f: &mut fmt::Formatter<W>) -> fmt::Result {
        write_attributes(&self.attributes, f)?;
        write_names("requires ", &self.extensions, f)
    }
}

/// Copies a list of names.
pub(crate) fn clone_names(names: &Vec<String>, alloc: Global) -> Result<Vec<String>, AllocError>
    ensures { IfOk result (λ copy. map string_bytes copy.items ≡ map string_bytes names.now.items) }
{
    let mut copied = Vec::with_capacity(alloc, names.len())?;
    'names: for name in names {
        copied.push(String::from_str(alloc, name.as_str())?)?;
    }
    Ok(copied)
}

/// Writes a directive without its attributes: a word, and names with `, ` between each two.
fn write_names<W: fmt::Write>(
    word: &str,
    names: &[String],
    f: &mut fmt::Formatter<W>,
) -> fmt::Result
    ensures { WritesOnOk W.write_str_gives f.old result
        (word.now ++ joined (codes ", ") (map string_bytes names.now) ++ codes ";") f.new }
{
    f.write_str(word)?;
    write_joined(names, ", ", f)?;
    f.write_str(";")
}
