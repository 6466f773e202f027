//! The shortest text of a module that is known by its tree.

ghost use Rattle.std.specs.Prelude.{chars, string_bytes, IfOk};
ghost use Rattle.wgsl_model.specs.Program.{ReadsBack};
ghost use Rattle.wgsl_model.specs.Printed.Units.{print_unit};
ghost use Rattle.wgsl_tree_unit.specs.View.{unit_view};
ghost use Rattle.wgsl_minify.specs.Prints.{IsShortPrint};

use std::alloc::{AllocError, Global};
use wgsl_format_short::minify_print;
use wgsl_tree_unit::TranslationUnit;

/// Returns the shortest text of the printed module, where whole numbers are in hexadecimal if that
/// is shorter, and a `default` that is alone in its clause has no `case`.
pub fn short_print(alloc: Global, unit: &TranslationUnit) -> Result<String, AllocError>
    requires { ReadsBack (print_unit (unit_view unit.now)) (unit_view unit.now) }
    ensures { IfOk result (λ text.
        IsShortPrint (unit_view unit.now) (chars (string_bytes text))) }
{
    let printed = unit.to_string(alloc)?;
    Ok(minify_print(alloc, printed.as_str())?)
}
