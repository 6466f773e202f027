//! The filter of diagnostics that an attribute sets.

ghost use Rattle.wgsl_tree_attribute.specs.View.{diagnostic_view};
ghost use Rattle.std.specs.Fmt.{WritesOnOk};
ghost use Rattle.wgsl_model.specs.Printed.Attributes.{print_diagnostic_attribute};

use std::fmt;
use std::fmt::Write;
use wgsl_tree_words::DiagnosticSeverity;

/// The arguments of a `@diagnostic` attribute: a severity and the name of a rule.
#[derive(PartialEq, Debug, Drop)]
pub struct DiagnosticAttribute {
    pub severity: DiagnosticSeverity,
    pub rule: String,
}

pub(crate) fn write_diagnostic<W: fmt::Write>(
    attribute: &DiagnosticAttribute,
    f: &mut fmt::Formatter<W>,
) -> fmt::Result
    ensures { WritesOnOk W.write_str_gives f.old result
        (print_diagnostic_attribute (diagnostic_view attribute.now)) f.new }
{
    let severity = attribute.severity;
    let rule = &attribute.rule;
    write!(f, "@diagnostic({severity}, {rule})")
}
