//! Written by tools/tables/collected_names.py from crates/wgsl_model/nodes: names of nodes.

ghost use Rattle.wgsl_model.specs.Trees.Attributed.{Attributed};
ghost use Rattle.wgsl_model.specs.Trees.NamedValues as plain_value;
ghost use Rattle.wgsl_model.specs.Trees.Statements as plain;
ghost use Rattle.wgsl_model_names.specs.Names.{maybe, node_names, call_names, space_names};
ghost use Rattle.wgsl_model_names.specs.Names.{mode_names, kind_names, value_names, selector_names};
ghost use Rattle.wgsl_model_names.specs.Names.{break_if_names};
ghost use Rattle.wgsl_model_names.specs.Scopes.{◌then◌};
ghost use Rattle.wgsl_tree_simple.specs.View.{assert_view, assignment_view, break_if_view};
ghost use Rattle.wgsl_tree_simple.specs.View.{call_statement_view, declaration_kind_view};
ghost use Rattle.wgsl_tree_simple.specs.View.{declaration_view, decrement_view, increment_view};
ghost use Rattle.wgsl_tree_simple.specs.View.{return_view, selector_view};
ghost use Rattle.wgsl_tree_words.specs.View.{address_space_view, access_mode_view};
ghost use Rattle.wgsl_tree_names.specs.Attributed.{attributed};

use crate::collected::{Collected, Kind, Occurrence};
use crate::expression::put_call;
use crate::named::Named;
use std::alloc::AllocError;
use wgsl_tree_simple::{
    AssignmentStatement, BreakIfStatement, CaseSelector, ConstAssert, Declaration, DeclarationKind,
    DecrementStatement, FunctionCallStatement, IncrementStatement, ReturnStatement,
};
use wgsl_tree_words::{AccessMode, AddressSpace};

impl Named for AddressSpace {
    ghost Plain = { plain_value.AddressSpace };

    ghost view = { address_space_view };

    ghost names = { space_names };

    fn put_names<'t>(&'t self, found: &mut Collected<'t>) -> Result<(), AllocError> {
        found.put(Occurrence::Use(match self {
            AddressSpace::Function => "function",
            AddressSpace::Private => "private",
            AddressSpace::Workgroup => "workgroup",
            AddressSpace::Uniform => "uniform",
            AddressSpace::Storage => "storage",
        }))
    }
}

impl Named for AccessMode {
    ghost Plain = { plain_value.AccessMode };

    ghost view = { access_mode_view };

    ghost names = { mode_names };

    fn put_names<'t>(&'t self, found: &mut Collected<'t>) -> Result<(), AllocError> {
        found.put(Occurrence::Use(match self {
            AccessMode::Read => "read",
            AccessMode::Write => "write",
            AccessMode::ReadWrite => "read_write",
        }))
    }
}

impl Named for Declaration {
    ghost Plain = { Attributed plain.Declaration };

    ghost view = { declaration_view };

    ghost names = { attributed value_names };

    fn put_names<'t>(&'t self, found: &mut Collected<'t>) -> Result<(), AllocError> {
        self.initializer.put_names(found)?;
        self.ty.put_names(found)?;
        self.kind.put_names(found)?;
        self.attributes.put_names(found)
    }
}

impl Named for DeclarationKind {
    ghost Plain = { plain.DeclarationKind };

    ghost view = { declaration_kind_view };

    ghost names = { kind_names };

    fn put_names<'t>(&'t self, found: &mut Collected<'t>) -> Result<(), AllocError> {
        match self {
            DeclarationKind::Var(Some((space, mode))) => {
                mode.put_names(found)?;
                space.put_names(found)
            }
            DeclarationKind::Const
            | DeclarationKind::Override
            | DeclarationKind::Let
            | DeclarationKind::Var(None) => Ok(()),
        }
    }
}

impl Named for AssignmentStatement {
    ghost Plain = { Attributed plain.AssignmentStatement };

    ghost view = { assignment_view };

    ghost names = { attributed (λ a. node_names a.lhs then node_names a.rhs) };

    fn put_names<'t>(&'t self, found: &mut Collected<'t>) -> Result<(), AllocError> {
        self.rhs.put_names(found)?;
        self.lhs.put_names(found)?;
        self.attributes.put_names(found)
    }
}

impl Named for IncrementStatement {
    ghost Plain = { Attributed plain.IncrementStatement };

    ghost view = { increment_view };

    ghost names = { attributed (λ s. node_names s.expression) };

    fn put_names<'t>(&'t self, found: &mut Collected<'t>) -> Result<(), AllocError> {
        self.expression.put_names(found)?;
        self.attributes.put_names(found)
    }
}

impl Named for DecrementStatement {
    ghost Plain = { Attributed plain.DecrementStatement };

    ghost view = { decrement_view };

    ghost names = { attributed (λ s. node_names s.expression) };

    fn put_names<'t>(&'t self, found: &mut Collected<'t>) -> Result<(), AllocError> {
        self.expression.put_names(found)?;
        self.attributes.put_names(found)
    }
}

impl Named for CaseSelector {
    ghost Plain = { plain.CaseSelector };

    ghost view = { selector_view };

    ghost names = { selector_names };

    fn put_names<'t>(&'t self, found: &mut Collected<'t>) -> Result<(), AllocError> {
        match self {
            CaseSelector::Expression(inner) => inner.put_names(found),
            CaseSelector::Default => Ok(()),
        }
    }
}

impl Named for BreakIfStatement {
    ghost Plain = { Attributed plain.BreakIfStatement };

    ghost view = { break_if_view };

    ghost names = { break_if_names };

    fn put_names<'t>(&'t self, found: &mut Collected<'t>) -> Result<(), AllocError> {
        self.expression.put_names(found)?;
        self.attributes.put_names(found)
    }
}

impl Named for ReturnStatement {
    ghost Plain = { Attributed plain.ReturnStatement };

    ghost view = { return_view };

    ghost names = { attributed (λ s. maybe node_names s.expression) };

    fn put_names<'t>(&'t self, found: &mut Collected<'t>) -> Result<(), AllocError> {
        self.expression.put_names(found)?;
        self.attributes.put_names(found)
    }
}

impl Named for FunctionCallStatement {
    ghost Plain = { Attributed plain.FunctionCallStatement };

    ghost view = { call_statement_view };

    ghost names = { attributed (λ s. call_names s.call) };

    fn put_names<'t>(&'t self, found: &mut Collected<'t>) -> Result<(), AllocError> {
        put_call(&self.call, Kind::Use, found)?;
        self.attributes.put_names(found)
    }
}

impl Named for ConstAssert {
    ghost Plain = { Attributed plain.ConstAssert };

    ghost view = { assert_view };

    ghost names = { attributed (λ s. node_names s.expression) };

    fn put_names<'t>(&'t self, found: &mut Collected<'t>) -> Result<(), AllocError> {
        self.expression.put_names(found)?;
        self.attributes.put_names(found)
    }
}
