//! Calls.

ghost use Rattle.std.specs.Prelude.{◌≡◌, IfOk, Some};
ghost use Rattle.wgsl_tree_expression.specs.View.{function_call_view};
ghost use Rattle.wgsl_model.specs.Printed.Expressions.{print_call};
ghost use Rattle.std.specs.Cmp.{on_per};
ghost use Rattle.wgsl_tree_code.specs.Same.{same};
ghost use Rattle.wgsl_tree_code.specs.Laws.{same_partial};
ghost use Rattle.wgsl_tree_code.specs.ExpressionNodes.{call_code};

use crate::chain::clone_node;
use crate::expression::ExpressionNode;
use crate::type_expression::TypeExpression;
use std::alloc::{AllocError, Global};
use std::fmt;
use std::fmt::Write;
use wgsl_span::CloneWith;

/// A call of a function or of a value constructor, as `ty(arguments)`.
#[cycle(expression)]
#[derive(Debug, Drop)]
pub struct FunctionCall {
    pub ty: TypeExpression,
    pub arguments: Vec<ExpressionNode>,
}

/// A call as an expression.
pub type FunctionCallExpression = FunctionCall;

impl FunctionCall {
    /// Returns a copy, unless allocation fails.
    pub fn clone(&self, alloc: Global) -> Result<Self, AllocError>
        ensures { IfOk result (λ copy. function_call_view copy ≡ function_call_view self.now) }
    {
        self.clone_with(alloc)
    }
}

impl CloneWith for FunctionCall {
    ghost copies = { λ original copy. function_call_view copy ≡ function_call_view original };

    #[cycle(clone)]
    fn clone_with(&self, alloc: Global) -> Result<Self, AllocError> {
        let ty = self.ty.clone_with(alloc)?;
        let mut arguments = Vec::new(alloc);
        'arguments: for argument in &self.arguments {
            arguments.push(clone_node(argument, alloc)?)?;
        }
        Ok(FunctionCall { ty, arguments })
    }
}

impl PartialEq for FunctionCall {
    ghost eq = { λ a b. same (call_code (function_call_view a)) (call_code (function_call_view b)) };

    ghost laws = { on_per (λ e. call_code (function_call_view e)) same_partial };

    #[cycle(equal)]
    fn eq(&self, other: &FunctionCall) -> bool {
        if !(self.ty == other.ty) {
            return false;
        }
        if self.arguments.len() != other.arguments.len() {
            return false;
        }
        'arguments: for i in 0..self.arguments.len() {
            if !(*self.arguments[i].node() == *other.arguments[i].node()) {
                return false;
            }
        }
        true
    }
}

impl fmt::Display for FunctionCall {
    ghost output = { λ e. Some (print_call (function_call_view e)) };

    #[cycle(display)]
    fn fmt<W: fmt::Write>(&self, f: &mut fmt::Formatter<W>) -> fmt::Result {
        let ty = &self.ty;
        write!(f, "{ty}(")?;
        let mut before = "";
        'arguments: for argument in &self.arguments {
            write!(f, "{before}{argument}")?;
            before = ", ";
        }
        f.write_str(")")
    }
}
