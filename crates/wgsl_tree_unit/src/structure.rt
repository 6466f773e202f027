//! Structures and their members.

ghost use Rattle.std.specs.Prelude.{◌≡◌, [], Some, codes, if◌then◌else◌};
ghost use Rattle.wgsl_tree_unit.specs.View.{struct_view, member_view};
ghost use Rattle.wgsl_model.specs.Trees.Attributed.{without_attributes};
ghost use Rattle.wgsl_tree_expression.specs.View.{ident_name, type_expression_view};
ghost use Rattle.std.specs.Fmt.{WritesOnOk};
ghost use Rattle.wgsl_model.specs.Printed.Indentation.{indented};
ghost use Rattle.wgsl_model.specs.Printed.Declarations.{print_attributed};
ghost use Rattle.wgsl_model.specs.Printed.Units.{print_member, print_struct};
ghost use Rattle.wgsl_tree_unit.specs.Printed.{print_members};
ghost use Rattle.wgsl_writer.specs.Writing.{WritesInto};

use std::alloc::Global;
use std::fmt;
use std::fmt::Write;
use wgsl_span::Spanned;
use wgsl_tree_attribute::{Attributes, AttributesBefore};
use wgsl_tree_expression::{Ident, TypeExpression};
use wgsl_tree_simple::write_attributes;
use wgsl_writer::Indented;

/// A declaration of a structure.
#[derive(PartialEq, Debug, Drop)]
pub struct Struct {
    pub attributes: Attributes,
    pub ident: Ident,
    pub members: Vec<StructMemberNode>,
}

impl Struct {
    /// Creates the structure without attributes and members.
    pub fn new(alloc: Global, ident: Ident) -> Self
        ensures { struct_view result
            ≡ without_attributes (record { ident = ident_name ident; members = [] }) }
    {
        Struct {
            attributes: Vec::new(alloc),
            ident,
            members: Vec::new(alloc),
        }
    }
}

impl fmt::Display for Struct {
    ghost output = { λ structure. Some (print_attributed print_struct (struct_view structure)) };

    fn fmt<W: fmt::Write>(&self, f: &mut fmt::Formatter<W>) -> fmt::Result {
        write_attributes(&self.attributes, f)?;
        write_struct(self, f)
    }
}

/// A member of a structure.
#[derive(PartialEq, Debug, Drop)]
pub struct StructMember {
    pub attributes: Attributes,
    pub ident: Ident,
    pub ty: TypeExpression,
}

/// A member of a structure and where it is.
pub type StructMemberNode = Spanned<StructMember>;

impl StructMember {
    /// Creates the member without attributes.
    pub fn new(alloc: Global, ident: Ident, ty: TypeExpression) -> Self
        ensures { member_view result
            ≡ record { attributes = []; ident = ident_name ident; ty = type_expression_view ty } }
    {
        StructMember {
            attributes: Vec::new(alloc),
            ident,
            ty,
        }
    }
}

impl fmt::Display for StructMember {
    ghost output = { λ member. Some (print_member (member_view member)) };

    fn fmt<W: fmt::Write>(&self, f: &mut fmt::Formatter<W>) -> fmt::Result {
        let attributes = AttributesBefore {
            attributes: &self.attributes,
            end: "\n",
        };
        let ident = &self.ident;
        let ty = &self.ty;
        write!(f, "{attributes}{ident}: {ty}")
    }
}

/// Writes a structure without its attributes.
fn write_struct<W: fmt::Write>(structure: &Struct, f: &mut fmt::Formatter<W>) -> fmt::Result
    ensures { WritesOnOk W.write_str_gives f.old result
        (print_struct (struct_view structure.now).node) f.new }
{
    let ident = &structure.ident;
    write!(f, "struct {ident} {{\n")?;
    write_members(&structure.members, f)?;
    f.write_str("\n}")
}

/// Writes members on lines of their own, four spaces in.
fn write_members<W: fmt::Write>(
    members: &[StructMemberNode],
    f: &mut fmt::Formatter<W>,
) -> fmt::Result
    ensures { WritesOnOk W.write_str_gives f.old result
        (indented (print_members members.now)) f.new }
{
    let mut out = Indented::new(f);
    let outcome = write_member_lines(members, &mut out);
    out.into_inner();
    outcome
}

/// Writes the lines of members, with a `,` and a line break between each two.
fn write_member_lines<W: fmt::Write>(
    members: &[StructMemberNode],
    out: &mut Indented<'_, W>,
) -> fmt::Result
    ensures { WritesInto W.write_str_gives out.old result
        (indented (print_members members.now)) out.new }
{
    out.indent()?;
    let mut first = true;
    'lines: for member in members {
        write_member_gap(first, out)?;
        out.write_value(member)?;
        first = false;
    }
    out.unindent();
    Ok(())
}

/// Writes what is before a member: before the first the four spaces, before each other a `,` and
/// a line break.
fn write_member_gap<W: fmt::Write>(first: bool, out: &mut Indented<'_, W>) -> fmt::Result
    ensures { WritesInto W.write_str_gives out.old result
        (if first then codes "    " else codes ",\n") out.new }
{
    if first {
        out.write_piece("    ")
    } else {
        out.write_piece(",")?;
        out.write_line_end()
    }
}
