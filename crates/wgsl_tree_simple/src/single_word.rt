//! Statements of one word: `break`, `continue` and `discard`.
#![tactic(auto, using(std::proofs::lemmas::List::append_assoc))]

ghost use Rattle.std.specs.Prelude.{Some};
ghost use Rattle.wgsl_tree_simple.specs.View.{break_view, continue_view, discard_view};
ghost use Rattle.wgsl_model.specs.Printed.Statements.{unended, print_statement};

use crate::attributes::write_attributes;
use crate::unended::Unended;
use std::fmt;
use std::fmt::Write;
use wgsl_tree_attribute::Attributes;

/// A `break` statement.
#[derive(PartialEq, Debug, Drop)]
pub struct BreakStatement {
    pub attributes: Attributes,
}

impl fmt::Display for BreakStatement {
    ghost output = { λ statement. Some (print_statement (break_view statement)) };

    fn fmt<W: fmt::Write>(&self, f: &mut fmt::Formatter<W>) -> fmt::Result {
        write!(f, "{};", Unended(self))
    }
}

impl fmt::Display for Unended<'_, BreakStatement> {
    ghost output = { λ statement. Some (unended (break_view statement.0.now)) };

    fn fmt<W: fmt::Write>(&self, f: &mut fmt::Formatter<W>) -> fmt::Result {
        write_attributes(&self.0.attributes, f)?;
        f.write_str("break")
    }
}

/// A `continue` statement.
#[derive(PartialEq, Debug, Drop)]
pub struct ContinueStatement {
    pub attributes: Attributes,
}

impl fmt::Display for ContinueStatement {
    ghost output = { λ statement. Some (print_statement (continue_view statement)) };

    fn fmt<W: fmt::Write>(&self, f: &mut fmt::Formatter<W>) -> fmt::Result {
        write!(f, "{};", Unended(self))
    }
}

impl fmt::Display for Unended<'_, ContinueStatement> {
    ghost output = { λ statement. Some (unended (continue_view statement.0.now)) };

    fn fmt<W: fmt::Write>(&self, f: &mut fmt::Formatter<W>) -> fmt::Result {
        write_attributes(&self.0.attributes, f)?;
        f.write_str("continue")
    }
}

/// A `discard` statement.
#[derive(PartialEq, Debug, Drop)]
pub struct DiscardStatement {
    pub attributes: Attributes,
}

impl fmt::Display for DiscardStatement {
    ghost output = { λ statement. Some (print_statement (discard_view statement)) };

    fn fmt<W: fmt::Write>(&self, f: &mut fmt::Formatter<W>) -> fmt::Result {
        write!(f, "{};", Unended(self))
    }
}

impl fmt::Display for Unended<'_, DiscardStatement> {
    ghost output = { λ statement. Some (unended (discard_view statement.0.now)) };

    fn fmt<W: fmt::Write>(&self, f: &mut fmt::Formatter<W>) -> fmt::Result {
        write_attributes(&self.0.attributes, f)?;
        f.write_str("discard")
    }
}
