//! Written by tools/tables/collected_names.py from crates/wgsl_model/nodes: names of nodes.

ghost use Rattle.std.specs.Prelude.{IfOk};
ghost use Rattle.wgsl_model.specs.Trees.Attributed.{Attributed};
ghost use Rattle.wgsl_model.specs.Trees.Spanned.{Spanned};
ghost use Rattle.wgsl_model.specs.Trees.Units as plain;
ghost use Rattle.wgsl_model_names.specs.Names.{each, type_names, member_names, parameter_names};
ghost use Rattle.wgsl_model_names.specs.Names.{function_names, global_names, global_declared};
ghost use Rattle.wgsl_model_names.specs.Names.{directive_names};
ghost use Rattle.wgsl_span.specs.View.{spanned_view};
ghost use Rattle.wgsl_tree_unit.specs.View.{function_view, global_declaration_view};
ghost use Rattle.wgsl_tree_unit.specs.View.{global_directive_view, member_view, parameter_view};
ghost use Rattle.wgsl_tree_unit.specs.View.{struct_view, type_alias_view};
ghost use Rattle.wgsl_tree_names.specs.Attributed.{attributed};
ghost use Rattle.wgsl_tree_names.specs.Found.{Collects};

use crate::collected::{Collected, Occurrence};
use crate::declared::put_declared;
use crate::named::Named;
use crate::statement_nodes::put_compound;
use crate::unit::put_declared_parameters;
use std::alloc::AllocError;
use wgsl_tree_unit::{
    FormalParameter, Function, GlobalDeclaration, GlobalDeclarationNode, GlobalDirective, Struct,
    StructMemberNode, TypeAlias,
};

impl Named for GlobalDirective {
    ghost Plain = { plain.GlobalDirective };

    ghost view = { global_directive_view };

    ghost names = { directive_names };

    fn put_names<'t>(&'t self, found: &mut Collected<'t>) -> Result<(), AllocError> {
        match self {
            GlobalDirective::Diagnostic(inner) => inner.attributes.put_names(found),
            GlobalDirective::Enable(inner) => inner.attributes.put_names(found),
            GlobalDirective::Requires(inner) => inner.attributes.put_names(found),
        }
    }
}

impl Named for GlobalDeclarationNode {
    ghost Plain = { Spanned plain.GlobalDeclaration };

    ghost view = { spanned_view global_declaration_view };

    ghost names = { global_names };

    fn put_names<'t>(&'t self, found: &mut Collected<'t>) -> Result<(), AllocError> {
        match self.node() {
            GlobalDeclaration::Declaration(inner) => inner.put_names(found),
            GlobalDeclaration::TypeAlias(inner) => inner.put_names(found),
            GlobalDeclaration::Struct(inner) => inner.put_names(found),
            GlobalDeclaration::Function(inner) => inner.put_names(found),
            GlobalDeclaration::ConstAssert(inner) => inner.put_names(found),
            GlobalDeclaration::Void => Ok(()),
        }
    }
}

pub(crate) fn put_declared_global<'t>(
    node: &'t GlobalDeclarationNode,
    found: &mut Collected<'t>,
) -> Result<(), AllocError>
    ensures { IfOk result (λ _. Collects
        (global_declared (spanned_view global_declaration_view node.now))
        found.old found.new) }
{
    match node.node() {
        GlobalDeclaration::Declaration(inner) => {
            put_declared(&inner.attributes, Some(inner.ident.name()), found)
        }
        GlobalDeclaration::TypeAlias(inner) => {
            put_declared(&inner.attributes, Some(inner.ident.name()), found)
        }
        GlobalDeclaration::Struct(inner) => {
            put_declared(&inner.attributes, Some(inner.ident.name()), found)
        }
        GlobalDeclaration::Function(inner) => {
            put_declared(&inner.attributes, Some(inner.ident.name()), found)
        }
        GlobalDeclaration::ConstAssert(inner) => put_declared(&inner.attributes, None, found),
        GlobalDeclaration::Void => Ok(()),
    }
}

impl Named for Struct {
    ghost Plain = { Attributed plain.Struct };

    ghost view = { struct_view };

    ghost names = { attributed (λ s. each member_names s.members) };

    fn put_names<'t>(&'t self, found: &mut Collected<'t>) -> Result<(), AllocError> {
        self.members.put_names(found)?;
        self.attributes.put_names(found)
    }
}

impl Named for StructMemberNode {
    ghost Plain = { Spanned plain.StructMember };

    ghost view = { spanned_view member_view };

    ghost names = { member_names };

    fn put_names<'t>(&'t self, found: &mut Collected<'t>) -> Result<(), AllocError> {
        self.node().ty.put_names(found)?;
        self.node().attributes.put_names(found)
    }
}

impl Named for TypeAlias {
    ghost Plain = { Attributed plain.TypeAlias };

    ghost view = { type_alias_view };

    ghost names = { attributed (λ a. type_names a.ty) };

    fn put_names<'t>(&'t self, found: &mut Collected<'t>) -> Result<(), AllocError> {
        self.ty.put_names(found)?;
        self.attributes.put_names(found)
    }
}

impl Named for Function {
    ghost Plain = { Attributed plain.Function };

    ghost view = { function_view };

    ghost names = { attributed function_names };

    fn put_names<'t>(&'t self, found: &mut Collected<'t>) -> Result<(), AllocError> {
        found.put(Occurrence::ScopeEnd)?;
        put_compound(&self.body, found)?;
        put_declared_parameters(&self.parameters, found)?;
        found.put(Occurrence::ScopeStart)?;
        self.return_type.put_names(found)?;
        self.return_attributes.put_names(found)?;
        self.parameters.put_names(found)?;
        self.attributes.put_names(found)
    }
}

impl Named for FormalParameter {
    ghost Plain = { plain.FormalParameter };

    ghost view = { parameter_view };

    ghost names = { parameter_names };

    fn put_names<'t>(&'t self, found: &mut Collected<'t>) -> Result<(), AllocError> {
        self.ty.put_names(found)?;
        self.attributes.put_names(found)
    }
}
