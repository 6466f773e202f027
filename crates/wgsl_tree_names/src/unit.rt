//! Modules, and what is declared in lists.

ghost use Rattle.std.specs.Prelude.{◌≡◌, IfOk, map};
ghost use Rattle.wgsl_model_minify.specs.Occurrences.{occurrences};
ghost use Rattle.wgsl_model_names.specs.Names.{each, global_declared, parameter_declared};
ghost use Rattle.wgsl_model_names.specs.Names.{unit_names};
ghost use Rattle.wgsl_span.specs.View.{spanned_view};
ghost use Rattle.wgsl_tree_names.specs.Found.{Collects, occurrence_view};
ghost use Rattle.wgsl_tree_unit.specs.View.{global_declaration_view, parameter_view, unit_view};

use crate::collected::{Collected, Occurrence};
use crate::declared::put_declared;
use crate::named::Named;
use crate::unit_nodes::put_declared_global;
use std::alloc::{AllocError, Global};
use wgsl_tree_unit::{FormalParameter, GlobalDeclarationNode, TranslationUnit};

/// Puts the declarations of parameters before what was collected.
pub(crate) fn put_declared_parameters<'t>(
    parameters: &'t Vec<FormalParameter>,
    found: &mut Collected<'t>,
) -> Result<(), AllocError>
    ensures { IfOk result (λ _. Collects
        (each parameter_declared (map parameter_view parameters.now.items)) found.old found.new) }
{
    'parameters: for i in (0..parameters.len()).rev() {
        let parameter = &parameters[i];
        put_declared(&parameter.attributes, Some(parameter.ident.name()), found)?;
    }
    Ok(())
}

/// Puts what the declarations of a module declare before what was collected.
fn put_all_declared<'t>(
    nodes: &'t Vec<GlobalDeclarationNode>,
    found: &mut Collected<'t>,
) -> Result<(), AllocError>
    ensures { IfOk result (λ _. Collects
        (each global_declared (map (spanned_view global_declaration_view) nodes.now.items))
        found.old found.new) }
{
    'nodes: for i in (0..nodes.len()).rev() {
        put_declared_global(&nodes[i], found)?;
    }
    Ok(())
}

/// Returns the names that a module uses and declares, and where scopes start and end.
///
/// What the module itself declares is first, since it is in scope in the whole module. All else is
/// in the order of the text, but each declaration is where its scope starts: that of a value in a
/// block after its type and its value, those of parameters after the types of the function. What is
/// under `@if`, `@elif` or `@else` is an alternative where its declaration would be, also if it
/// declares nothing. Of the names in arguments of `@if`, of `@elif` and of attributes that the
/// library does not know it is not known what they refer to.
///
/// The only error is that allocation fails.
pub fn occurrences<'t>(
    alloc: Global,
    unit: &'t TranslationUnit,
) -> Result<Vec<Occurrence<'t>>, AllocError>
    ensures { IfOk result (λ found.
        map occurrence_view found.items ≡ occurrences (unit_names (unit_view unit.now))) }
{
    let mut found = Collected::new(alloc);
    unit.global_declarations.put_names(&mut found)?;
    unit.global_directives.put_names(&mut found)?;
    put_all_declared(&unit.global_declarations, &mut found)?;
    Ok(found.into_list())
}
