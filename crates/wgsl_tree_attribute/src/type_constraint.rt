//! The types that a name may be.

ghost use Rattle.std.specs.Prelude.{◌≡◌, Some};
ghost use Rattle.wgsl_tree_attribute.specs.View.{type_constraint_view};
ghost use Rattle.wgsl_model.specs.Printed.Attributes.{print_type_constraint};

use std::fmt;
use std::fmt::Write;
use wgsl_tree_expression::{Ident, TypeExpression};
use wgsl_writer::write_joined;

/// A name, and the types that it may be.
#[derive(PartialEq, Debug, Drop)]
pub struct TypeConstraint {
    pub ident: Ident,
    pub variants: Vec<TypeExpression>,
}

impl From<(Ident, Vec<TypeExpression>)> for TypeConstraint {
    ghost from_gives = { λ parts made. made ≡ record { ident = parts.0; variants = parts.1 } };

    fn from(parts: (Ident, Vec<TypeExpression>)) -> Self {
        let (ident, variants) = parts;
        TypeConstraint { ident, variants }
    }
}

impl fmt::Display for TypeConstraint {
    ghost output = { λ constraint. Some (print_type_constraint (type_constraint_view constraint)) };

    fn fmt<W: fmt::Write>(&self, f: &mut fmt::Formatter<W>) -> fmt::Result {
        let ident = &self.ident;
        write!(f, "{ident}, ")?;
        write_joined(&self.variants, " | ", f)
    }
}
