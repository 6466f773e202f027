//! What a clause of a `switch` selects.
#![tactic(auto, using(std::proofs::lemmas::List::append_assoc))]

ghost use Rattle.std.specs.Prelude.{Some};
ghost use Rattle.wgsl_tree_simple.specs.View.{selector_view};
ghost use Rattle.wgsl_model.specs.Printed.Declarations.{print_selector};

use std::fmt;
use std::fmt::Write;
use wgsl_tree_expression::ExpressionNode;

/// A selector of a clause of a `switch`.
#[derive(PartialEq, Debug, Drop)]
pub enum CaseSelector {
    Default,
    Expression(ExpressionNode),
}

impl fmt::Display for CaseSelector {
    ghost output = { λ selector. Some (print_selector (selector_view selector)) };

    fn fmt<W: fmt::Write>(&self, f: &mut fmt::Formatter<W>) -> fmt::Result {
        match self {
            CaseSelector::Default => f.write_str("default"),
            CaseSelector::Expression(expression) => write!(f, "{expression}"),
        }
    }
}
