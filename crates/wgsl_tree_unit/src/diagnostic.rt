//! Filters of diagnostics.

ghost use Rattle.std.specs.Prelude.{Some};
ghost use Rattle.wgsl_tree_unit.specs.View.{diagnostic_directive_view};
ghost use Rattle.std.specs.Fmt.{WritesOnOk};
ghost use Rattle.wgsl_model.specs.Printed.Declarations.{print_attributed};
ghost use Rattle.wgsl_model.specs.Printed.Units.{print_diagnostic};

use std::fmt;
use std::fmt::Write;
use wgsl_tree_attribute::Attributes;
use wgsl_tree_simple::write_attributes;
use wgsl_tree_words::DiagnosticSeverity;

/// A `diagnostic` directive with a severity and the name of a rule; the parts of a name in two are
/// joined by a `.`.
#[derive(PartialEq, Debug, Drop)]
pub struct DiagnosticDirective {
    pub attributes: Attributes,
    pub severity: DiagnosticSeverity,
    pub rule_name: String,
}

impl fmt::Display for DiagnosticDirective {
    ghost output = { λ directive. Some (print_attributed print_diagnostic (diagnostic_directive_view directive)) };

    fn fmt<W: fmt::Write>(&self, f: &mut fmt::Formatter<W>) -> fmt::Result {
        write_attributes(&self.attributes, f)?;
        write_filter(self, f)
    }
}

/// Writes a filter of diagnostics without its attributes.
fn write_filter<W: fmt::Write>(
    directive: &DiagnosticDirective,
    f: &mut fmt::Formatter<W>,
) -> fmt::Result
    ensures { WritesOnOk W.write_str_gives f.old result
        (print_diagnostic (diagnostic_directive_view directive.now).node) f.new }
{
    let severity = directive.severity;
    let rule_name = &directive.rule_name;
    write!(f, "diagnostic ({severity}, {rule_name});")
}
