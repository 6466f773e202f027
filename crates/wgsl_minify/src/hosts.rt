//! The names by which a host program refers to declarations of a module.

ghost use Rattle.std.specs.Prelude.{◌≡◌, IfOk, MatchOption, [], ◌∷◌, map};
ghost use Rattle.std.specs.List.{list_any};
ghost use Rattle.wgsl_span.specs.Spanned.{spanned_node};
ghost use Rattle.wgsl_tree_attribute.specs.View.{attribute_view};
ghost use Rattle.wgsl_tree_unit.specs.View.{global_declaration_view, unit_view};
ghost use Rattle.wgsl_minify.specs.Hosts as model;

use std::alloc::{AllocError, Global};
use wgsl_tree_attribute::{Attribute, AttributeNode};
use wgsl_tree_simple::DeclarationKind;
use wgsl_tree_unit::{GlobalDeclaration, TranslationUnit};

/// Returns the names of the entry points and overrides of a module, in its order.
pub fn host_names<'t>(alloc: Global, unit: &'t TranslationUnit) -> Result<Vec<&'t str>, AllocError>
    ensures { IfOk result (λ names. map (λ name. name.now) names.items
        ≡ model.host_names (unit_view unit.now)) }
{
    let mut names = Vec::new(alloc);
    'declarations: for declaration in &unit.global_declarations {
        if let Some(name) = host_name(declaration.node()) {
            names.push(name)?;
        }
    }
    Ok(names)
}

/// The name of an entry point or of an override.
#[tactic(auto, using(crate::proofs::Stages::any_stage))]
fn host_name(declaration: &GlobalDeclaration) -> Option<&str>
    ensures { MatchOption result
        (model.host_name (global_declaration_view declaration.now).attributes
        (global_declaration_view declaration.now).node ≡ [])
        (λ name. model.host_name (global_declaration_view declaration.now).attributes
        (global_declaration_view declaration.now).node ≡ name.now ∷ []) }
{
    match declaration {
        GlobalDeclaration::Declaration(value) => match value.kind {
            DeclarationKind::Override => Some(value.ident.name()),
            DeclarationKind::Const | DeclarationKind::Let | DeclarationKind::Var(_) => None,
        },
        GlobalDeclaration::Function(function) if is_entry_point(&function.attributes) => {
            Some(function.ident.name())
        }
        GlobalDeclaration::Function(_)
        | GlobalDeclaration::Void
        | GlobalDeclaration::TypeAlias(_)
        | GlobalDeclaration::Struct(_)
        | GlobalDeclaration::ConstAssert(_) => None,
    }
}

/// Whether a function with these attributes is an entry point.
fn is_entry_point(attributes: &[AttributeNode]) -> bool
    ensures { result
        ≡ list_any (λ node. model.is_stage (attribute_view (spanned_node node))) attributes.now }
{
    attributes.iter().any(|node| is_stage(node.node()))
}

/// Whether an attribute is for a shader stage, or may be for one of an extension.
fn is_stage(attribute: &Attribute) -> bool
    ensures { result ≡ model.is_stage (attribute_view attribute.now) }
{
    match attribute {
        Attribute::Vertex | Attribute::Fragment | Attribute::Compute => true,
        Attribute::Custom(custom) => custom.arguments.is_none(),
        _ => false,
    }
}
