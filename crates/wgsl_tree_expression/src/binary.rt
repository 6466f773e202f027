//! Operators between two operands.

ghost use Rattle.std.specs.Prelude.{◌≡◌, IfOk, Some};
ghost use Rattle.wgsl_tree_expression.specs.View.{expression_node_view, binary_expression_view};
ghost use Rattle.wgsl_tree_expression.specs.Chains.{with_left, text_after, same_after};
ghost use Rattle.std.specs.Fmt.{WritesOnOk};
ghost use Rattle.wgsl_model.specs.Printed.Expressions.{print_expression};
ghost use Rattle.std.specs.Cmp.{on_per};
ghost use Rattle.wgsl_tree_code.specs.Same.{same};
ghost use Rattle.wgsl_tree_code.specs.Laws.{same_partial};
ghost use Rattle.wgsl_tree_code.specs.ExpressionNodes.{expression_code};
ghost use Rattle.wgsl_tree_expression.specs.declared.expression.Expression.TheViews.{out-BinaryExpression};

use crate::chain::{clone_chain, clone_node, drop_chain, equal_chains, write_chain};
use crate::expression::ExpressionNode;
use std::alloc::{AllocError, Global};
use std::fmt;
use std::fmt::Write;
use wgsl_span::CloneWith;
use wgsl_tree_words::BinaryOperator;

/// An operator between two operands, as `left + right`.
#[cycle(expression)]
#[derive(Debug)]
pub struct BinaryExpression {
    pub operator: BinaryOperator,
    pub left: ExpressionNode,
    pub right: ExpressionNode,
}

impl BinaryExpression {
    /// Returns the left operand, the operator and the right operand.
    pub fn into_parts(self) -> (ExpressionNode, BinaryOperator, ExpressionNode)
        ensures left { result.0 ≡ (out-BinaryExpression self).left }
        ensures operator { result.1 ≡ (out-BinaryExpression self).operator }
        ensures right { result.2 ≡ (out-BinaryExpression self).right }
    {
        let BinaryExpression {
            operator,
            left,
            right,
        } = self;
        (left, operator, right)
    }

    /// Returns a copy, unless allocation fails.
    pub fn clone(&self, alloc: Global) -> Result<Self, AllocError>
        ensures { IfOk result (λ copy.
            binary_expression_view copy ≡ binary_expression_view self.now) }
    {
        self.clone_with(alloc)
    }

    /// A copy, but with another left operand.
    #[cycle(clone)]
    pub(crate) fn clone_onto(&self, left: ExpressionNode, alloc: Global) -> Result<Self, AllocError>
        ensures { IfOk result (λ copy. binary_expression_view copy
            ≡ with_left (binary_expression_view self.now) (expression_node_view left)) }
    {
        Ok(BinaryExpression {
            operator: self.operator,
            left,
            right: clone_node(&self.right, alloc)?,
        })
    }

    /// Writes what is printed after the left operand.
    #[cycle(display)]
    pub(crate) fn write_after<W: fmt::Write>(&self, f: &mut fmt::Formatter<W>) -> fmt::Result
        ensures { WritesOnOk W.write_str_gives f.old result
            (text_after (binary_expression_view self.now)) f.new }
    {
        let operator = self.operator;
        let right = &self.right;
        write!(f, " {operator} {right}")
    }
}

impl CloneWith for BinaryExpression {
    ghost copies = { λ original copy. binary_expression_view copy ≡ binary_expression_view original };

    #[cycle(clone)]
    fn clone_with(&self, alloc: Global) -> Result<Self, AllocError> {
        self.clone_onto(clone_chain(&self.left, alloc)?, alloc)
    }
}

impl PartialEq for BinaryExpression {
    ghost eq = { λ a b. same (expression_code (binary_expression_view a)) (expression_code (binary_expression_view b)) };

    ghost laws = { on_per (λ e. expression_code (binary_expression_view e)) same_partial };

    #[cycle(equal)]
    fn eq(&self, other: &BinaryExpression) -> bool {
        self.operator == other.operator
            && *self.right.node() == *other.right.node()
            && equal_chains(&self.left, &other.left)
    }
}

impl Drop for BinaryExpression {
    #[cycle(expression)]
    fn drop(self) {
        let (left, _, _) = self.into_parts();
        drop_chain(left);
    }
}

impl fmt::Display for BinaryExpression {
    ghost output = { λ e. Some (print_expression (binary_expression_view e)) };

    #[cycle(display)]
    fn fmt<W: fmt::Write>(&self, f: &mut fmt::Formatter<W>) -> fmt::Result {
        write_chain(&self.left, f)?;
        self.write_after(f)
    }
}

/// Whether two are equal in all but their left operands.
#[cycle(equal)]
pub(crate) fn equal_after(x: &BinaryExpression, y: &BinaryExpression) -> bool
    ensures { result ≡ same_after x.now y.now }
{
    x.operator == y.operator && *x.right.node() == *y.right.node()
}
