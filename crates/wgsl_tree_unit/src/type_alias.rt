//! Further names for types.

ghost use Rattle.std.specs.Prelude.{◌≡◌, [], Some};
ghost use Rattle.wgsl_tree_unit.specs.View.{type_alias_view};
ghost use Rattle.wgsl_model.specs.Printed.Declarations.{print_attributed};
ghost use Rattle.wgsl_model.specs.Printed.Units.{print_type_alias};

use std::alloc::Global;
use std::fmt;
use std::fmt::Write;
use wgsl_tree_attribute::Attributes;
use wgsl_tree_expression::{Ident, TypeExpression};
use wgsl_tree_simple::write_attributes;

/// A further name for a type.
#[derive(PartialEq, Debug, Drop)]
pub struct TypeAlias {
    pub attributes: Attributes,
    pub ident: Ident,
    pub ty: TypeExpression,
}

impl TypeAlias {
    /// Creates the alias without attributes.
    pub fn new(alloc: Global, ident: Ident, ty: TypeExpression) -> Self
        ensures attributes { result.attributes.items ≡ [] }
        ensures ident { result.ident ≡ ident }
        ensures ty { result.ty ≡ ty }
    {
        TypeAlias {
            attributes: Vec::new(alloc),
            ident,
            ty,
        }
    }
}

impl fmt::Display for TypeAlias {
    ghost output = { λ alias. Some (print_attributed print_type_alias (type_alias_view alias)) };

    fn fmt<W: fmt::Write>(&self, f: &mut fmt::Formatter<W>) -> fmt::Result {
        write_attributes(&self.attributes, f)?;
        let ident = &self.ident;
        let ty = &self.ty;
        write!(f, "alias {ident} = {ty};")
    }
}
