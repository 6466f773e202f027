//! Elements by their indices.

ghost use Rattle.std.specs.Prelude.{◌≡◌, IfOk, Some};
ghost use Rattle.wgsl_tree_expression.specs.View.{expression_node_view, indexing_expression_view};
ghost use Rattle.wgsl_tree_expression.specs.Chains.{with_left, text_after};
ghost use Rattle.std.specs.Fmt.{WritesOnOk};
ghost use Rattle.wgsl_model.specs.Printed.Expressions.{print_expression};
ghost use Rattle.std.specs.Cmp.{on_per};
ghost use Rattle.wgsl_tree_code.specs.Same.{same};
ghost use Rattle.wgsl_tree_code.specs.Laws.{same_partial};
ghost use Rattle.wgsl_tree_code.specs.ExpressionNodes.{expression_code};
ghost use Rattle.wgsl_tree_expression.specs.declared.expression.Expression.TheViews.{out-IndexingExpression};

use crate::chain::{clone_chain, clone_node, drop_chain, equal_chains, write_chain};
use crate::expression::ExpressionNode;
use std::alloc::{AllocError, Global};
use std::fmt;
use std::fmt::Write;
use wgsl_span::CloneWith;

/// An element, as `base[index]`.
#[cycle(expression)]
#[derive(Debug)]
pub struct IndexingExpression {
    pub base: ExpressionNode,
    pub index: ExpressionNode,
}

impl IndexingExpression {
    /// Returns the base and the index.
    pub fn into_parts(self) -> (ExpressionNode, ExpressionNode)
        ensures base { result.0 ≡ (out-IndexingExpression self).base }
        ensures index { result.1 ≡ (out-IndexingExpression self).index }
    {
        let IndexingExpression { base, index } = self;
        (base, index)
    }

    /// Returns a copy, unless allocation fails.
    pub fn clone(&self, alloc: Global) -> Result<Self, AllocError>
        ensures { IfOk result (λ copy.
            indexing_expression_view copy ≡ indexing_expression_view self.now) }
    {
        self.clone_with(alloc)
    }

    /// A copy, but with another base.
    #[cycle(clone)]
    pub(crate) fn clone_onto(&self, base: ExpressionNode, alloc: Global) -> Result<Self, AllocError>
        ensures { IfOk result (λ copy. indexing_expression_view copy
            ≡ with_left (indexing_expression_view self.now) (expression_node_view base)) }
    {
        Ok(IndexingExpression {
            base,
            index: clone_node(&self.index, alloc)?,
        })
    }

    /// Writes what is printed after the base.
    #[cycle(display)]
    pub(crate) fn write_after<W: fmt::Write>(&self, f: &mut fmt::Formatter<W>) -> fmt::Result
        ensures { WritesOnOk W.write_str_gives f.old result
            (text_after (indexing_expression_view self.now)) f.new }
    {
        let index = &self.index;
        write!(f, "[{index}]")
    }
}

impl CloneWith for IndexingExpression {
    ghost copies = { λ original copy. indexing_expression_view copy ≡ indexing_expression_view original };

    #[cycle(clone)]
    fn clone_with(&self, alloc: Global) -> Result<Self, AllocError> {
        self.clone_onto(clone_chain(&self.base, alloc)?, alloc)
    }
}

impl PartialEq for IndexingExpression {
    ghost eq = { λ a b. same (expression_code (indexing_expression_view a)) (expression_code (indexing_expression_view b)) };

    ghost laws = { on_per (λ e. expression_code (indexing_expression_view e)) same_partial };

    #[cycle(equal)]
    fn eq(&self, other: &IndexingExpression) -> bool {
        equal_chains(&self.base, &other.base) && *self.index.node() == *other.index.node()
    }
}

impl Drop for IndexingExpression {
    #[cycle(expression)]
    fn drop(self) {
        let (base, _) = self.into_parts();
        drop_chain(base);
    }
}

impl fmt::Display for IndexingExpression {
    ghost output = { λ e. Some (print_expression (indexing_expression_view e)) };

    #[cycle(display)]
    fn fmt<W: fmt::Write>(&self, f: &mut fmt::Formatter<W>) -> fmt::Result {
        write_chain(&self.base, f)?;
        self.write_after(f)
    }
}
