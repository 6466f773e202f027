//! Components by their names.

ghost use Rattle.std.specs.Prelude.{◌≡◌, IfOk, Some};
ghost use Rattle.wgsl_tree_expression.specs.View.{expression_node_view, named_component_expression_view};
ghost use Rattle.wgsl_tree_expression.specs.Chains.{with_left, text_after};
ghost use Rattle.std.specs.Fmt.{WritesOnOk};
ghost use Rattle.wgsl_model.specs.Printed.Expressions.{print_expression};
ghost use Rattle.std.specs.Cmp.{on_per};
ghost use Rattle.wgsl_tree_code.specs.Same.{same};
ghost use Rattle.wgsl_tree_code.specs.Laws.{same_partial};
ghost use Rattle.wgsl_tree_code.specs.ExpressionNodes.{expression_code};
ghost use Rattle.wgsl_tree_expression.specs.declared.expression.Expression.TheViews.{out-NamedComponentExpression};

use crate::chain::{clone_chain, drop_chain, equal_chains, write_chain};
use crate::expression::ExpressionNode;
use crate::ident::Ident;
use std::alloc::{AllocError, Global};
use std::fmt;
use std::fmt::Write;
use wgsl_span::CloneWith;

/// A component by its name, as `base.component`.
#[cycle(expression)]
#[derive(Debug)]
pub struct NamedComponentExpression {
    pub base: ExpressionNode,
    pub component: Ident,
}

impl NamedComponentExpression {
    /// Returns the base and the name of the component.
    pub fn into_parts(self) -> (ExpressionNode, Ident)
        ensures base { result.0 ≡ (out-NamedComponentExpression self).base }
        ensures component { result.1 ≡ (out-NamedComponentExpression self).component }
    {
        let NamedComponentExpression { base, component } = self;
        (base, component)
    }

    /// Returns a copy, unless allocation fails.
    pub fn clone(&self, alloc: Global) -> Result<Self, AllocError>
        ensures { IfOk result (λ copy.
            named_component_expression_view copy ≡ named_component_expression_view self.now) }
    {
        self.clone_with(alloc)
    }

    /// A copy, but with another base.
    pub(crate) fn clone_onto(&self, base: ExpressionNode, alloc: Global) -> Result<Self, AllocError>
        ensures { IfOk result (λ copy. named_component_expression_view copy
            ≡ with_left (named_component_expression_view self.now) (expression_node_view base)) }
    {
        Ok(NamedComponentExpression {
            base,
            component: self.component.clone_with(alloc)?,
        })
    }

    /// Writes what is printed after the base.
    pub(crate) fn write_after<W: fmt::Write>(&self, f: &mut fmt::Formatter<W>) -> fmt::Result
        ensures { WritesOnOk W.write_str_gives f.old result
            (text_after (named_component_expression_view self.now)) f.new }
    {
        let component = &self.component;
        if self.base.node().is_abstract_int() {
            write!(f, " .{component}")
        } else {
            write!(f, ".{component}")
        }
    }
}

impl CloneWith for NamedComponentExpression {
    ghost copies = { λ original copy. named_component_expression_view copy ≡ named_component_expression_view original };

    #[cycle(clone)]
    fn clone_with(&self, alloc: Global) -> Result<Self, AllocError> {
        self.clone_onto(clone_chain(&self.base, alloc)?, alloc)
    }
}

impl PartialEq for NamedComponentExpression {
    ghost eq = { λ a b. same (expression_code (named_component_expression_view a)) (expression_code (named_component_expression_view b)) };

    ghost laws = { on_per (λ e. expression_code (named_component_expression_view e)) same_partial };

    #[cycle(equal)]
    fn eq(&self, other: &NamedComponentExpression) -> bool {
        equal_chains(&self.base, &other.base) && self.component.name() == other.component.name()
    }
}

impl Drop for NamedComponentExpression {
    #[cycle(expression)]
    fn drop(self) {
        let (base, _) = self.into_parts();
        drop_chain(base);
    }
}

impl fmt::Display for NamedComponentExpression {
    ghost output = { λ e. Some (print_expression (named_component_expression_view e)) };

    #[cycle(display)]
    fn fmt<W: fmt::Write>(&self, f: &mut fmt::Formatter<W>) -> fmt::Result {
        write_chain(&self.base, f)?;
        self.write_after(f)
    }
}
