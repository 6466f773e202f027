//! Directives.

ghost use Rattle.std.specs.Prelude.{Some};
ghost use Rattle.wgsl_tree_unit.specs.View.{global_directive_view};
ghost use Rattle.wgsl_model.specs.Printed.Units.{print_directive};

use crate::diagnostic::DiagnosticDirective;
use crate::extensions::{EnableDirective, RequiresDirective};
use std::fmt;
use std::fmt::Write;

/// A directive of a module.
#[derive(PartialEq, Debug, Drop)]
pub enum GlobalDirective {
    Diagnostic(DiagnosticDirective),
    Enable(EnableDirective),
    Requires(RequiresDirective),
}

impl fmt::Display for GlobalDirective {
    ghost output = { λ directive. Some (print_directive (global_directive_view directive)) };

    fn fmt<W: fmt::Write>(&self, f: &mut fmt::Formatter<W>) -> fmt::Result {
        match self {
            GlobalDirective::Diagnostic(directive) => write!(f, "{directive}"),
            GlobalDirective::Enable(directive) => write!(f, "{directive}"),
            GlobalDirective::Requires(directive) => write!(f, "{directive}"),
        }
    }
}
