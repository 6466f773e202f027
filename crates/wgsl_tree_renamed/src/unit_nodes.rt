//! Written by tools/tables/renamed_trees.py from crates/wgsl_model/nodes: copies with new names.

ghost use Rattle.wgsl_model.specs.Trees.Spanned as plain_spanned;
ghost use Rattle.wgsl_model.specs.Trees.Units as plain;
ghost use Rattle.wgsl_model_names.specs.Renamed.{renamed_directive, renamed_global, renamed_member};
ghost use Rattle.wgsl_model_names.specs.Renamed.{renamed_parameter, renamed_spanned};
ghost use Rattle.wgsl_span.specs.View.{spanned_view};
ghost use Rattle.wgsl_tree_unit.specs.View.{as_directive, diagnostic_directive_view};
ghost use Rattle.wgsl_tree_unit.specs.View.{enable_directive_view, function_view};
ghost use Rattle.wgsl_tree_unit.specs.View.{global_declaration_view, global_directive_view};
ghost use Rattle.wgsl_tree_unit.specs.View.{member_view, parameter_view, requires_directive_view};
ghost use Rattle.wgsl_tree_unit.specs.View.{struct_view, type_alias_view};

use crate::attribute::renamed_attributes;
use crate::ident::renamed_ident;
use crate::new_names::NewNames;
use crate::statement_nodes::renamed_compound;
use crate::traits::{Rename, renamed_spanned};
use std::alloc::{AllocError, Global};
use wgsl_span::CloneWith;
use wgsl_tree_unit::{
    DiagnosticDirective, EnableDirective, FormalParameter, Function, GlobalDeclaration,
    GlobalDeclarationNode, GlobalDirective, RequiresDirective, Struct, StructMember,
    StructMemberNode, TypeAlias,
};

impl Rename for GlobalDirective {
    ghost Plain = { plain.GlobalDirective };

    ghost view = { global_directive_view };

    ghost changed = { renamed_directive };

    fn renamed(&self, names: &NewNames, alloc: Global) -> Result<Self, AllocError> {
        match self {
            GlobalDirective::Diagnostic(inner) => Ok(GlobalDirective::Diagnostic(inner.renamed(
                names, alloc,
            )?)),
            GlobalDirective::Enable(inner) => Ok(GlobalDirective::Enable(inner.renamed(
                names, alloc,
            )?)),
            GlobalDirective::Requires(inner) => Ok(GlobalDirective::Requires(inner.renamed(
                names, alloc,
            )?)),
        }
    }
}

impl Rename for GlobalDeclaration {
    ghost Plain = { plain.GlobalDeclaration };

    ghost view = { global_declaration_view };

    ghost changed = { renamed_global };

    fn renamed(&self, names: &NewNames, alloc: Global) -> Result<Self, AllocError> {
        match self {
            GlobalDeclaration::Void => Ok(GlobalDeclaration::Void),
            GlobalDeclaration::Declaration(inner) => Ok(GlobalDeclaration::Declaration(
                inner.renamed(names, alloc)?,
            )),
            GlobalDeclaration::TypeAlias(inner) => Ok(GlobalDeclaration::TypeAlias(inner.renamed(
                names, alloc,
            )?)),
            GlobalDeclaration::Struct(inner) => Ok(GlobalDeclaration::Struct(inner.renamed(
                names, alloc,
            )?)),
            GlobalDeclaration::Function(inner) => Ok(GlobalDeclaration::Function(inner.renamed(
                names, alloc,
            )?)),
            GlobalDeclaration::ConstAssert(inner) => Ok(GlobalDeclaration::ConstAssert(
                inner.renamed(names, alloc)?,
            )),
        }
    }
}

impl Rename for GlobalDeclarationNode {
    ghost Plain = { plain_spanned.Spanned plain.GlobalDeclaration };

    ghost view = { spanned_view global_declaration_view };

    ghost changed = { λ f. renamed_spanned (renamed_global f) };

    fn renamed(&self, names: &NewNames, alloc: Global) -> Result<Self, AllocError> {
        renamed_spanned(self, names, alloc)
    }
}

impl Rename for DiagnosticDirective {
    ghost Plain = { plain.GlobalDirective };

    ghost view = { λ n. as_directive plain.diagnostic (diagnostic_directive_view n) };

    ghost changed = { renamed_directive };

    fn renamed(&self, names: &NewNames, alloc: Global) -> Result<Self, AllocError> {
        let mut copy = self.clone_with(alloc)?;
        copy.attributes = renamed_attributes(&self.attributes, names, alloc)?;
        Ok(copy)
    }
}

impl Rename for EnableDirective {
    ghost Plain = { plain.GlobalDirective };

    ghost view = { λ n. as_directive plain.enable (enable_directive_view n) };

    ghost changed = { renamed_directive };

    fn renamed(&self, names: &NewNames, alloc: Global) -> Result<Self, AllocError> {
        let mut copy = self.clone_with(alloc)?;
        copy.attributes = renamed_attributes(&self.attributes, names, alloc)?;
        Ok(copy)
    }
}

impl Rename for RequiresDirective {
    ghost Plain = { plain.GlobalDirective };

    ghost view = { λ n. as_directive plain.requires (requires_directive_view n) };

    ghost changed = { renamed_directive };

    fn renamed(&self, names: &NewNames, alloc: Global) -> Result<Self, AllocError> {
        let mut copy = self.clone_with(alloc)?;
        copy.attributes = renamed_attributes(&self.attributes, names, alloc)?;
        Ok(copy)
    }
}

impl Rename for Struct {
    ghost Plain = { plain.GlobalDeclaration };

    ghost view = { λ n. plain.as_declaration plain.structure (struct_view n) };

    ghost changed = { renamed_global };

    fn renamed(&self, names: &NewNames, alloc: Global) -> Result<Self, AllocError> {
        Ok(Struct {
            attributes: renamed_attributes(&self.attributes, names, alloc)?,
            ident: renamed_ident(&self.ident, names, alloc)?,
            members: self.members.renamed(names, alloc)?,
        })
    }
}

impl Rename for StructMember {
    ghost Plain = { plain.StructMember };

    ghost view = { member_view };

    ghost changed = { renamed_member };

    fn renamed(&self, names: &NewNames, alloc: Global) -> Result<Self, AllocError> {
        Ok(StructMember {
            attributes: renamed_attributes(&self.attributes, names, alloc)?,
            ident: self.ident.clone_with(alloc)?,
            ty: self.ty.renamed(names, alloc)?,
        })
    }
}

impl Rename for StructMemberNode {
    ghost Plain = { plain_spanned.Spanned plain.StructMember };

    ghost view = { spanned_view member_view };

    ghost changed = { λ f. renamed_spanned (renamed_member f) };

    fn renamed(&self, names: &NewNames, alloc: Global) -> Result<Self, AllocError> {
        renamed_spanned(self, names, alloc)
    }
}

impl Rename for TypeAlias {
    ghost Plain = { plain.GlobalDeclaration };

    ghost view = { λ n. plain.as_declaration plain.type_alias (type_alias_view n) };

    ghost changed = { renamed_global };

    fn renamed(&self, names: &NewNames, alloc: Global) -> Result<Self, AllocError> {
        Ok(TypeAlias {
            attributes: renamed_attributes(&self.attributes, names, alloc)?,
            ident: renamed_ident(&self.ident, names, alloc)?,
            ty: self.ty.renamed(names, alloc)?,
        })
    }
}

impl Rename for Function {
    ghost Plain = { plain.GlobalDeclaration };

    ghost view = { λ n. plain.as_declaration plain.function (function_view n) };

    ghost changed = { renamed_global };

    fn renamed(&self, names: &NewNames, alloc: Global) -> Result<Self, AllocError> {
        Ok(Function {
            attributes: renamed_attributes(&self.attributes, names, alloc)?,
            ident: renamed_ident(&self.ident, names, alloc)?,
            parameters: self.parameters.renamed(names, alloc)?,
            return_attributes: renamed_attributes(&self.return_attributes, names, alloc)?,
            return_type: self.return_type.renamed(names, alloc)?,
            body: renamed_compound(&self.body, names, alloc)?,
        })
    }
}

impl Rename for FormalParameter {
    ghost Plain = { plain.FormalParameter };

    ghost view = { parameter_view };

    ghost changed = { renamed_parameter };

    fn renamed(&self, names: &NewNames, alloc: Global) -> Result<Self, AllocError> {
        Ok(FormalParameter {
            attributes: renamed_attributes(&self.attributes, names, alloc)?,
            ident: renamed_ident(&self.ident, names, alloc)?,
            ty: self.ty.renamed(names, alloc)?,
        })
    }
}
