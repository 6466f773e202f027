//! Declarations of a module.

ghost use Rattle.std.specs.Prelude.{◌≡◌, Some};
ghost use Rattle.wgsl_tree_unit.specs.View.{global_declaration_view};
ghost use Rattle.wgsl_model.specs.Printed.Units.{print_global_declaration};
ghost use Rattle.wgsl_model.specs.Trees.EmptyItems.{full_declaration};

use crate::function::Function;
use crate::structure::Struct;
use crate::type_alias::TypeAlias;
use std::fmt;
use std::fmt::Write;
use wgsl_span::Spanned;
use wgsl_tree_statement::{ConstAssert, Declaration};

/// A declaration of a module.
#[derive(PartialEq, Debug, Drop)]
pub enum GlobalDeclaration {
    /// A `;` alone.
    Void,
    Declaration(Declaration),
    TypeAlias(TypeAlias),
    Struct(Struct),
    Function(Function),
    ConstAssert(ConstAssert),
}

/// A declaration of a module and where it is.
pub type GlobalDeclarationNode = Spanned<GlobalDeclaration>;

impl GlobalDeclaration {
    /// Removes the empty statements from every list of statements in this declaration.
    pub fn remove_voids(&mut self)
        ensures { global_declaration_view self.new
            ≡ full_declaration (global_declaration_view self.old) }
    {
        if let GlobalDeclaration::Function(function) = self {
            function.body.remove_voids();
        }
    }
}

impl fmt::Display for GlobalDeclaration {
    ghost output = { λ declaration. Some (print_global_declaration (global_declaration_view declaration)) };

    fn fmt<W: fmt::Write>(&self, f: &mut fmt::Formatter<W>) -> fmt::Result {
        match self {
            GlobalDeclaration::Void => f.write_str(";"),
            GlobalDeclaration::Declaration(declaration) => write!(f, "{declaration}"),
            GlobalDeclaration::TypeAlias(declaration) => write!(f, "{declaration}"),
            GlobalDeclaration::Struct(declaration) => write!(f, "{declaration}"),
            GlobalDeclaration::Function(declaration) => write!(f, "{declaration}"),
            GlobalDeclaration::ConstAssert(declaration) => write!(f, "{declaration}"),
        }
    }
}
