//! Written by tools/tables/renamed_trees.py from crates/wgsl_model/nodes: copies with new names.

ghost use Rattle.wgsl_model.specs.Trees.Attributed.{Attributed};
ghost use Rattle.wgsl_model.specs.Trees.Statements as plain;
ghost use Rattle.wgsl_model_names.specs.Renamed.{renamed_assert, renamed_attributed};
ghost use Rattle.wgsl_model_names.specs.Renamed.{renamed_break_if, renamed_declaration};
ghost use Rattle.wgsl_model_names.specs.Renamed.{renamed_selector, renaming};
ghost use Rattle.wgsl_tree_simple.specs.View.{assert_view, assignment_view, break_if_view};
ghost use Rattle.wgsl_tree_simple.specs.View.{break_view, call_statement_view, continue_view};
ghost use Rattle.wgsl_tree_simple.specs.View.{declaration_view, decrement_view, discard_view};
ghost use Rattle.wgsl_tree_simple.specs.View.{increment_view, return_view, selector_view};

use crate::attribute::renamed_attributes;
use crate::expression::renamed_call;
use crate::ident::renamed_ident;
use crate::new_names::NewNames;
use crate::traits::Rename;
use std::alloc::{AllocError, Global};
use wgsl_tree_simple::{
    AssignmentStatement, BreakIfStatement, BreakStatement, CaseSelector, ConstAssert,
    ContinueStatement, Declaration, DecrementStatement, DiscardStatement, FunctionCallStatement,
    IncrementStatement, ReturnStatement,
};

impl Rename for Declaration {
    ghost Plain = { Attributed plain.Declaration };

    ghost view = { declaration_view };

    ghost changed = { λ f. renamed_attributed f (renamed_declaration f) };

    fn renamed(&self, names: &NewNames, alloc: Global) -> Result<Self, AllocError> {
        Ok(Declaration {
            attributes: renamed_attributes(&self.attributes, names, alloc)?,
            kind: self.kind,
            ident: renamed_ident(&self.ident, names, alloc)?,
            ty: self.ty.renamed(names, alloc)?,
            initializer: self.initializer.renamed(names, alloc)?,
        })
    }
}

impl Rename for AssignmentStatement {
    ghost Plain = { plain.Statement };

    ghost view = { λ n. plain.as_statement plain.assignment (assignment_view n) };

    ghost changed = { λ f. plain.changed_statement (renaming f) };

    fn renamed(&self, names: &NewNames, alloc: Global) -> Result<Self, AllocError> {
        Ok(AssignmentStatement {
            attributes: renamed_attributes(&self.attributes, names, alloc)?,
            operator: self.operator,
            lhs: self.lhs.renamed(names, alloc)?,
            rhs: self.rhs.renamed(names, alloc)?,
        })
    }
}

impl Rename for IncrementStatement {
    ghost Plain = { plain.Statement };

    ghost view = { λ n. plain.as_statement plain.increment (increment_view n) };

    ghost changed = { λ f. plain.changed_statement (renaming f) };

    fn renamed(&self, names: &NewNames, alloc: Global) -> Result<Self, AllocError> {
        Ok(IncrementStatement {
            attributes: renamed_attributes(&self.attributes, names, alloc)?,
            expression: self.expression.renamed(names, alloc)?,
        })
    }
}

impl Rename for DecrementStatement {
    ghost Plain = { plain.Statement };

    ghost view = { λ n. plain.as_statement plain.decrement (decrement_view n) };

    ghost changed = { λ f. plain.changed_statement (renaming f) };

    fn renamed(&self, names: &NewNames, alloc: Global) -> Result<Self, AllocError> {
        Ok(DecrementStatement {
            attributes: renamed_attributes(&self.attributes, names, alloc)?,
            expression: self.expression.renamed(names, alloc)?,
        })
    }
}

impl Rename for CaseSelector {
    ghost Plain = { plain.CaseSelector };

    ghost view = { selector_view };

    ghost changed = { renamed_selector };

    fn renamed(&self, names: &NewNames, alloc: Global) -> Result<Self, AllocError> {
        match self {
            CaseSelector::Default => Ok(CaseSelector::Default),
            CaseSelector::Expression(inner) => Ok(CaseSelector::Expression(inner.renamed(
                names, alloc,
            )?)),
        }
    }
}

impl Rename for BreakStatement {
    ghost Plain = { plain.Statement };

    ghost view = { break_view };

    ghost changed = { λ f. plain.changed_statement (renaming f) };

    fn renamed(&self, names: &NewNames, alloc: Global) -> Result<Self, AllocError> {
        Ok(BreakStatement {
            attributes: renamed_attributes(&self.attributes, names, alloc)?,
        })
    }
}

impl Rename for BreakIfStatement {
    ghost Plain = { Attributed plain.BreakIfStatement };

    ghost view = { break_if_view };

    ghost changed = { λ f. renamed_attributed f (renamed_break_if f) };

    fn renamed(&self, names: &NewNames, alloc: Global) -> Result<Self, AllocError> {
        Ok(BreakIfStatement {
            attributes: renamed_attributes(&self.attributes, names, alloc)?,
            expression: self.expression.renamed(names, alloc)?,
        })
    }
}

impl Rename for ContinueStatement {
    ghost Plain = { plain.Statement };

    ghost view = { continue_view };

    ghost changed = { λ f. plain.changed_statement (renaming f) };

    fn renamed(&self, names: &NewNames, alloc: Global) -> Result<Self, AllocError> {
        Ok(ContinueStatement {
            attributes: renamed_attributes(&self.attributes, names, alloc)?,
        })
    }
}

impl Rename for ReturnStatement {
    ghost Plain = { plain.Statement };

    ghost view = { λ n. plain.as_statement plain.return_statement (return_view n) };

    ghost changed = { λ f. plain.changed_statement (renaming f) };

    fn renamed(&self, names: &NewNames, alloc: Global) -> Result<Self, AllocError> {
        Ok(ReturnStatement {
            attributes: renamed_attributes(&self.attributes, names, alloc)?,
            expression: self.expression.renamed(names, alloc)?,
        })
    }
}

impl Rename for DiscardStatement {
    ghost Plain = { plain.Statement };

    ghost view = { discard_view };

    ghost changed = { λ f. plain.changed_statement (renaming f) };

    fn renamed(&self, names: &NewNames, alloc: Global) -> Result<Self, AllocError> {
        Ok(DiscardStatement {
            attributes: renamed_attributes(&self.attributes, names, alloc)?,
        })
    }
}

impl Rename for FunctionCallStatement {
    ghost Plain = { plain.Statement };

    ghost view = { λ n. plain.as_statement plain.function_call_statement (call_statement_view n) };

    ghost changed = { λ f. plain.changed_statement (renaming f) };

    fn renamed(&self, names: &NewNames, alloc: Global) -> Result<Self, AllocError> {
        Ok(FunctionCallStatement {
            attributes: renamed_attributes(&self.attributes, names, alloc)?,
            call: renamed_call(&self.call, names, alloc)?,
        })
    }
}

impl Rename for ConstAssert {
    ghost Plain = { Attributed plain.ConstAssert };

    ghost view = { assert_view };

    ghost changed = { λ f. renamed_attributed f (renamed_assert f) };

    fn renamed(&self, names: &NewNames, alloc: Global) -> Result<Self, AllocError> {
        Ok(ConstAssert {
            attributes: renamed_attributes(&self.attributes, names, alloc)?,
            expression: self.expression.renamed(names, alloc)?,
        })
    }
}
