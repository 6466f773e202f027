//! Written by tools/tables/tree_nodes.py from crates/wgsl_model/nodes: which variant a node is,
//! what it holds, and what becomes one.

ghost use Rattle.std.specs.Prelude.{◌≡◌, IsTrue};
ghost use Rattle.wgsl_tree_simple.specs.View.{declaration_kind_view, selector_view};
ghost use Rattle.wgsl_tree_simple.specs.VariantsNodes.{is_const, is_override, is_let, is_var};
ghost use Rattle.wgsl_tree_simple.specs.VariantsNodes.{is_default, is_expression};
ghost use Rattle.wgsl_tree_simple.specs.declared.case_selector.CaseSelector.TheVariants as case_selector;

use crate::case_selector::CaseSelector;
use crate::declaration::DeclarationKind;
use wgsl_tree_expression::ExpressionNode;

impl DeclarationKind {
    /// Returns whether this is `DeclarationKind::Const`.
    pub fn is_const(&self) -> bool
        ensures { result ≡ is_const (declaration_kind_view self.now) }
    {
        matches!(self, DeclarationKind::Const)
    }

    /// Returns whether this is `DeclarationKind::Override`.
    pub fn is_override(&self) -> bool
        ensures { result ≡ is_override (declaration_kind_view self.now) }
    {
        matches!(self, DeclarationKind::Override)
    }

    /// Returns whether this is `DeclarationKind::Let`.
    pub fn is_let(&self) -> bool
        ensures { result ≡ is_let (declaration_kind_view self.now) }
    {
        matches!(self, DeclarationKind::Let)
    }

    /// Returns whether this is `DeclarationKind::Var`.
    pub fn is_var(&self) -> bool
        ensures { result ≡ is_var (declaration_kind_view self.now) }
    {
        matches!(self, DeclarationKind::Var(_))
    }
}

impl CaseSelector {
    /// Returns whether this is `CaseSelector::Default`.
    pub fn is_default(&self) -> bool
        ensures { result ≡ is_default (selector_view self.now) }
    {
        matches!(self, CaseSelector::Default)
    }

    /// Returns whether this is `CaseSelector::Expression`.
    pub fn is_expression(&self) -> bool
        ensures { result ≡ is_expression (selector_view self.now) }
    {
        matches!(self, CaseSelector::Expression(_))
    }

    /// Consumes this `CaseSelector::Default`, which holds nothing.
    pub fn unwrap_default(self)
        requires { IsTrue (is_default (selector_view self)) }
        ensures { self ≡ case_selector.Default }
    {
        let CaseSelector::Default = self else {
            unreachable!()
        };
    }

    /// Returns what this `CaseSelector::Expression` holds.
    pub fn unwrap_expression(self) -> ExpressionNode
        requires { IsTrue (is_expression (selector_view self)) }
        ensures { self ≡ case_selector.Expression result }
    {
        let CaseSelector::Expression(inner) = self else {
            unreachable!()
        };
        inner
    }
}

impl From<ExpressionNode> for CaseSelector {
    ghost from_gives = { λ inner made. made ≡ case_selector.Expression inner };

    fn from(inner: ExpressionNode) -> Self {
        CaseSelector::Expression(inner)
    }
}
