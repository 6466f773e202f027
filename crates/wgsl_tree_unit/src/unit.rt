//! Modules.

ghost use Rattle.std.specs.Prelude.{◌≡◌, [], Some, map};
ghost use Rattle.wgsl_tree_unit.specs.View.{unit_view, global_directive_view};
ghost use Rattle.std.specs.Fmt.{WritesOnOk};
ghost use Rattle.wgsl_model.specs.Printed.Units.{print_directives, print_unit};
ghost use Rattle.wgsl_model.specs.Trees.EmptyItems.{full_unit};

use crate::directive::GlobalDirective;
use crate::global_declaration::GlobalDeclarationNode;
use std::alloc::Global;
use std::fmt;
use std::fmt::Write;
use wgsl_span::retain_nodes;
use wgsl_writer::write_joined;

/// A module: its directives, then its declarations.
#[derive(PartialEq, Debug, Drop)]
pub struct TranslationUnit {
    pub global_directives: Vec<GlobalDirective>,
    pub global_declarations: Vec<GlobalDeclarationNode>,
}

impl TranslationUnit {
    /// Creates the module without directives and declarations.
    pub fn new(alloc: Global) -> Self
        ensures { unit_view result ≡ record { global_directives = []; global_declarations = [] } }
    {
        TranslationUnit {
            global_directives: Vec::new(alloc),
            global_declarations: Vec::new(alloc),
        }
    }

    /// Removes the empty declarations, and the empty statements from every list of statements.
    pub fn remove_voids(&mut self)
        ensures { unit_view self.new ≡ full_unit (unit_view self.old) }
    {
        retain_nodes(&mut self.global_declarations, |declaration| {
            declaration.remove_voids();
            !declaration.is_void()
        });
    }
}

impl fmt::Display for TranslationUnit {
    ghost output = { λ unit. Some (print_unit (unit_view unit)) };

    fn fmt<W: fmt::Write>(&self, f: &mut fmt::Formatter<W>) -> fmt::Result {
        write_directives(&self.global_directives, f)?;
        let mut before = "";
        'declarations: for declaration in &self.global_declarations {
            if declaration.node().is_void() {
                continue;
            }
            write!(f, "{before}{declaration}")?;
            before = "\n\n";
        }
        f.write_str("\n")
    }
}

/// Writes directives on lines of their own, and an empty line after them if there are any.
fn write_directives<W: fmt::Write>(
    directives: &[GlobalDirective],
    f: &mut fmt::Formatter<W>,
) -> fmt::Result
    ensures { WritesOnOk W.write_str_gives f.old result
        (print_directives (map global_directive_view directives.now)) f.new }
{
    if directives.is_empty() {
        return Ok(());
    }
    write_joined(directives, "\n", f)?;
    f.write_str("\n\n")
}
