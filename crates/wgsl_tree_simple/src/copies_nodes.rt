//! Written by tools/tables/tree_copies.py from crates/wgsl_model/nodes: copies of nodes.

ghost use Rattle.std.specs.Prelude.{◌≡◌, IfOk};
ghost use Rattle.wgsl_tree_simple.specs.View.{declaration_view, assignment_view, increment_view};
ghost use Rattle.wgsl_tree_simple.specs.View.{decrement_view, selector_view, break_view};
ghost use Rattle.wgsl_tree_simple.specs.View.{break_if_view, continue_view, return_view};
ghost use Rattle.wgsl_tree_simple.specs.View.{discard_view, call_statement_view, assert_view};

use crate::assignment::AssignmentStatement;
use crate::attributes::clone_attributes;
use crate::break_if::BreakIfStatement;
use crate::call_statement::FunctionCallStatement;
use crate::case_selector::CaseSelector;
use crate::const_assert::ConstAssert;
use crate::declaration::Declaration;
use crate::increment::{DecrementStatement, IncrementStatement};
use crate::return_statement::ReturnStatement;
use crate::single_word::{BreakStatement, ContinueStatement, DiscardStatement};
use std::alloc::{AllocError, Global};
use wgsl_span::CloneWith;

impl Declaration {
    /// Returns a copy, unless allocation fails.
    pub fn clone(&self, alloc: Global) -> Result<Self, AllocError>
        ensures { IfOk result (λ copy. declaration_view copy ≡ declaration_view self.now) }
    {
        self.clone_with(alloc)
    }
}

impl CloneWith for Declaration {
    ghost copies = { λ node copy. declaration_view copy ≡ declaration_view node };

    fn clone_with(&self, alloc: Global) -> Result<Self, AllocError> {
        Ok(Declaration {
            attributes: clone_attributes(&self.attributes, alloc)?,
            kind: self.kind,
            ident: self.ident.clone_with(alloc)?,
            ty: self.ty.clone_with(alloc)?,
            initializer: self.initializer.clone_with(alloc)?,
        })
    }
}

impl AssignmentStatement {
    /// Returns a copy, unless allocation fails.
    pub fn clone(&self, alloc: Global) -> Result<Self, AllocError>
        ensures { IfOk result (λ copy. assignment_view copy ≡ assignment_view self.now) }
    {
        self.clone_with(alloc)
    }
}

impl CloneWith for AssignmentStatement {
    ghost copies = { λ node copy. assignment_view copy ≡ assignment_view node };

    fn clone_with(&self, alloc: Global) -> Result<Self, AllocError> {
        Ok(AssignmentStatement {
            attributes: clone_attributes(&self.attributes, alloc)?,
            operator: self.operator,
            lhs: self.lhs.clone_with(alloc)?,
            rhs: self.rhs.clone_with(alloc)?,
        })
    }
}

impl IncrementStatement {
    /// Returns a copy, unless allocation fails.
    pub fn clone(&self, alloc: Global) -> Result<Self, AllocError>
        ensures { IfOk result (λ copy. increment_view copy ≡ increment_view self.now) }
    {
        self.clone_with(alloc)
    }
}

impl CloneWith for IncrementStatement {
    ghost copies = { λ node copy. increment_view copy ≡ increment_view node };

    fn clone_with(&self, alloc: Global) -> Result<Self, AllocError> {
        Ok(IncrementStatement {
            attributes: clone_attributes(&self.attributes, alloc)?,
            expression: self.expression.clone_with(alloc)?,
        })
    }
}

impl DecrementStatement {
    /// Returns a copy, unless allocation fails.
    pub fn clone(&self, alloc: Global) -> Result<Self, AllocError>
        ensures { IfOk result (λ copy. decrement_view copy ≡ decrement_view self.now) }
    {
        self.clone_with(alloc)
    }
}

impl CloneWith for DecrementStatement {
    ghost copies = { λ node copy. decrement_view copy ≡ decrement_view node };

    fn clone_with(&self, alloc: Global) -> Result<Self, AllocError> {
        Ok(DecrementStatement {
            attributes: clone_attributes(&self.attributes, alloc)?,
            expression: self.expression.clone_with(alloc)?,
        })
    }
}

impl CaseSelector {
    /// Returns a copy, unless allocation fails.
    pub fn clone(&self, alloc: Global) -> Result<Self, AllocError>
        ensures { IfOk result (λ copy. selector_view copy ≡ selector_view self.now) }
    {
        self.clone_with(alloc)
    }
}

impl CloneWith for CaseSelector {
    ghost copies = { λ node copy. selector_view copy ≡ selector_view node };

    fn clone_with(&self, alloc: Global) -> Result<Self, AllocError> {
        match self {
            CaseSelector::Default => Ok(CaseSelector::Default),
            CaseSelector::Expression(inner) => {
                Ok(CaseSelector::Expression(inner.clone_with(alloc)?))
            }
        }
    }
}

impl BreakStatement {
    /// Returns a copy, unless allocation fails.
    pub fn clone(&self, alloc: Global) -> Result<Self, AllocError>
        ensures { IfOk result (λ copy. break_view copy ≡ break_view self.now) }
    {
        self.clone_with(alloc)
    }
}

impl CloneWith for BreakStatement {
    ghost copies = { λ node copy. break_view copy ≡ break_view node };

    fn clone_with(&self, alloc: Global) -> Result<Self, AllocError> {
        Ok(BreakStatement {
            attributes: clone_attributes(&self.attributes, alloc)?,
        })
    }
}

impl BreakIfStatement {
    /// Returns a copy, unless allocation fails.
    pub fn clone(&self, alloc: Global) -> Result<Self, AllocError>
        ensures { IfOk result (λ copy. break_if_view copy ≡ break_if_view self.now) }
    {
        self.clone_with(alloc)
    }
}

impl CloneWith for BreakIfStatement {
    ghost copies = { λ node copy. break_if_view copy ≡ break_if_view node };

    fn clone_with(&self, alloc: Global) -> Result<Self, AllocError> {
        Ok(BreakIfStatement {
            attributes: clone_attributes(&self.attributes, alloc)?,
            expression: self.expression.clone_with(alloc)?,
        })
    }
}

impl ContinueStatement {
    /// Returns a copy, unless allocation fails.
    pub fn clone(&self, alloc: Global) -> Result<Self, AllocError>
        ensures { IfOk result (λ copy. continue_view copy ≡ continue_view self.now) }
    {
        self.clone_with(alloc)
    }
}

impl CloneWith for ContinueStatement {
    ghost copies = { λ node copy. continue_view copy ≡ continue_view node };

    fn clone_with(&self, alloc: Global) -> Result<Self, AllocError> {
        Ok(ContinueStatement {
            attributes: clone_attributes(&self.attributes, alloc)?,
        })
    }
}

impl ReturnStatement {
    /// Returns a copy, unless allocation fails.
    pub fn clone(&self, alloc: Global) -> Result<Self, AllocError>
        ensures { IfOk result (λ copy. return_view copy ≡ return_view self.now) }
    {
        self.clone_with(alloc)
    }
}

impl CloneWith for ReturnStatement {
    ghost copies = { λ node copy. return_view copy ≡ return_view node };

    fn clone_with(&self, alloc: Global) -> Result<Self, AllocError> {
        Ok(ReturnStatement {
            attributes: clone_attributes(&self.attributes, alloc)?,
            expression: self.expression.clone_with(alloc)?,
        })
    }
}

impl DiscardStatement {
    /// Returns a copy, unless allocation fails.
    pub fn clone(&self, alloc: Global) -> Result<Self, AllocError>
        ensures { IfOk result (λ copy. discard_view copy ≡ discard_view self.now) }
    {
        self.clone_with(alloc)
    }
}

impl CloneWith for DiscardStatement {
    ghost copies = { λ node copy. discard_view copy ≡ discard_view node };

    fn clone_with(&self, alloc: Global) -> Result<Self, AllocError> {
        Ok(DiscardStatement {
            attributes: clone_attributes(&self.attributes, alloc)?,
        })
    }
}

impl FunctionCallStatement {
    /// Returns a copy, unless allocation fails.
    pub fn clone(&self, alloc: Global) -> Result<Self, AllocError>
        ensures { IfOk result (λ copy. call_statement_view copy ≡ call_statement_view self.now) }
    {
        self.clone_with(alloc)
    }
}

impl CloneWith for FunctionCallStatement {
    ghost copies = { λ node copy. call_statement_view copy ≡ call_statement_view node };

    fn clone_with(&self, alloc: Global) -> Result<Self, AllocError> {
        Ok(FunctionCallStatement {
            attributes: clone_attributes(&self.attributes, alloc)?,
            call: self.call.clone_with(alloc)?,
        })
    }
}

impl ConstAssert {
    /// Returns a copy, unless allocation fails.
    pub fn clone(&self, alloc: Global) -> Result<Self, AllocError>
        ensures { IfOk result (λ copy. assert_view copy ≡ assert_view self.now) }
    {
        self.clone_with(alloc)
    }
}

impl CloneWith for ConstAssert {
    ghost copies = { λ node copy. assert_view copy ≡ assert_view node };

    fn clone_with(&self, alloc: Global) -> Result<Self, AllocError> {
        Ok(ConstAssert {
            attributes: clone_attributes(&self.attributes, alloc)?,
            expression: self.expression.clone_with(alloc)?,
        })
    }
}
