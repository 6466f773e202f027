//! Calls that are alone.
#![tactic(auto, using(std::proofs::lemmas::List::append_assoc))]

ghost use Rattle.std.specs.Prelude.{◌≡◌, Some};
ghost use Rattle.wgsl_tree_simple.specs.View.{call_statement_view};
ghost use Rattle.wgsl_model.specs.Trees.Attributed.{without_attributes};
ghost use Rattle.wgsl_tree_expression.specs.View.{function_call_view};
ghost use Rattle.wgsl_model.specs.Printed.Declarations.{print_attributed, print_call_statement, unended_call};

use crate::attributes::write_attributes;
use crate::unended::Unended;
use std::alloc::Global;
use std::fmt;
use std::fmt::Write;
use wgsl_tree_attribute::Attributes;
use wgsl_tree_expression::FunctionCall;

/// A call as a statement.
#[derive(PartialEq, Debug, Drop)]
pub struct FunctionCallStatement {
    pub attributes: Attributes,
    pub call: FunctionCall,
}

impl FunctionCallStatement {
    /// Creates the statement of a call, without attributes.
    pub fn from_call(alloc: Global, call: FunctionCall) -> Self
        ensures { call_statement_view result
            ≡ without_attributes (record { call = function_call_view call }) }
    {
        FunctionCallStatement {
            attributes: Vec::new(alloc),
            call,
        }
    }
}

impl fmt::Display for FunctionCallStatement {
    ghost output = { λ statement. Some (print_attributed print_call_statement (call_statement_view statement)) };

    fn fmt<W: fmt::Write>(&self, f: &mut fmt::Formatter<W>) -> fmt::Result {
        write!(f, "{};", Unended(self))
    }
}

impl fmt::Display for Unended<'_, FunctionCallStatement> {
    ghost output = { λ statement. Some (print_attributed unended_call (call_statement_view statement.0.now)) };

    fn fmt<W: fmt::Write>(&self, f: &mut fmt::Formatter<W>) -> fmt::Result {
        write_attributes(&self.0.attributes, f)?;
        let call = &self.0.call;
        write!(f, "{call}")
    }
}
