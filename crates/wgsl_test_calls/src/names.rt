//! The names of the functions of a module.

ghost use Rattle.std.specs.Prelude.{◌≡◌, ◌⊎◌, ◌++◌, IfOk, IfErr, OnOk, chars, map, flat_map, string_bytes};
ghost use Rattle.wgsl_parse.specs.Program.{IsUnit, IsFaultOf};
ghost use Rattle.wgsl_parse.specs.Units as plain;
ghost use Rattle.wgsl_parse.specs.SpanView.{spanned_view};
ghost use Rattle.wgsl_parse.specs.UnitView.{global_declaration_view};
ghost use Rattle.wgsl_parse.specs.Answers.{IsOutOfMemory};
ghost use Rattle.wgsl_parse.specs.ErrorView.{fault_view};
ghost use Rattle.wgsl_test_calls.specs.Names.{function_name_in, names_of};

use std::alloc::{AllocError, Global};
use wgsl_parse::error::Error;
use wgsl_parse::parse_str;
use wgsl_parse::syntax::{GlobalDeclaration, GlobalDeclarationNode};

/// Returns the names of the functions of a module, in their order.
pub fn function_names(alloc: Global, source: &str) -> Result<Vec<String>, Error>
    ensures names { IfOk result (λ names. (unit : plain.TranslationUnit)
        × IsUnit (chars source.now) unit × (map string_bytes names.items ≡ names_of unit)) }
    ensures refused { IfErr result (λ e.
        IsOutOfMemory e ⊎ IsFaultOf (chars source.now) (fault_view e)) }
{
    let unit = parse_str(alloc, source)?;
    let mut names = Vec::new(alloc);
    push_names(alloc, &mut names, &unit.global_declarations)?;
    Ok(names)
}

/// Adds the names of the functions among declarations.
fn push_names(
    alloc: Global,
    names: &mut Vec<String>,
    declarations: &[GlobalDeclarationNode],
) -> Result<(), AllocError>
    ensures { OnOk result (map string_bytes names.new.items ≡ map string_bytes names.old.items
        ++ flat_map function_name_in (map (spanned_view global_declaration_view) declarations.now)) }
{
    'declarations: for declaration in declarations {
        if let GlobalDeclaration::Function(function) = declaration.node() {
            names.push(String::from_str(alloc, function.ident.name())?)?;
        }
    }
    Ok(())
}
