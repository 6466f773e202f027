//! Literals.

ghost use Rattle.std.specs.Prelude.{◌≡◌, Some, IfOk};
ghost use Rattle.wgsl_model.specs.Printed.Expressions.{print_literal};
ghost use Rattle.wgsl_tree_expression.specs.View.{literal_view};

use std::alloc::{AllocError, Global};
use std::fmt;
use wgsl_span::CloneWith;

/// A literal. A float is its spelling without the suffix.
#[derive(PartialEq, Debug, Drop)]
pub enum LiteralExpression {
    Bool(bool),
    AbstractInt(i64),
    I32(i32),
    U32(u32),
    AbstractFloat(String),
    F32(String),
    F16(String),
}

impl LiteralExpression {
    /// Returns a copy, unless allocation fails.
    pub fn clone(&self, alloc: Global) -> Result<Self, AllocError>
        ensures { IfOk result (λ copy. literal_view copy ≡ literal_view self.now) }
    {
        self.clone_with(alloc)
    }
}

impl CloneWith for LiteralExpression {
    ghost copies = { λ literal copy. literal_view copy ≡ literal_view literal };

    fn clone_with(&self, alloc: Global) -> Result<Self, AllocError> {
        match self {
            LiteralExpression::Bool(value) => Ok(LiteralExpression::Bool(*value)),
            LiteralExpression::AbstractInt(value) => Ok(LiteralExpression::AbstractInt(*value)),
            LiteralExpression::I32(value) => Ok(LiteralExpression::I32(*value)),
            LiteralExpression::U32(value) => Ok(LiteralExpression::U32(*value)),
            LiteralExpression::AbstractFloat(text) => Ok(LiteralExpression::AbstractFloat(
                String::from_str(alloc, text.as_str())?,
            )),
            LiteralExpression::F32(text) => Ok(LiteralExpression::F32(String::from_str(
                alloc,
                text.as_str(),
            )?)),
            LiteralExpression::F16(text) => Ok(LiteralExpression::F16(String::from_str(
                alloc,
                text.as_str(),
            )?)),
        }
    }
}

impl fmt::Display for LiteralExpression {
    ghost output = { λ literal. Some (print_literal (literal_view literal)) };

    fn fmt<W: fmt::Write>(&self, f: &mut fmt::Formatter<W>) -> fmt::Result {
        match self {
            LiteralExpression::Bool(value) => write!(f, "{value}"),
            LiteralExpression::AbstractInt(value) => write!(f, "{value}"),
            LiteralExpression::I32(value) => write!(f, "{value}i"),
            LiteralExpression::U32(value) => write!(f, "{value}u"),
            LiteralExpression::AbstractFloat(text) => write!(f, "{text}"),
            LiteralExpression::F32(text) => write!(f, "{text}f"),
            LiteralExpression::F16(text) => write!(f, "{text}h"),
        }
    }
}
