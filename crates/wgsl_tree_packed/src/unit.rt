//! Modules, their directives and their declarations.

ghost use Rattle.std.specs.Prelude.{◌≡◌, ◌++◌, List, ℕ, map, string_bytes, OnOk, IfOk};
ghost use Rattle.std.specs.Option.{option_map};
ghost use Rattle.wgsl_model.specs.Trees.Spanned.{Spanned};
ghost use Rattle.wgsl_model.specs.Trees.Units as plain;
ghost use Rattle.wgsl_model_packed.specs.Printing.{packed_text};
ghost use Rattle.wgsl_model_packed.specs.Rules.{first_declaration_rule};
ghost use Rattle.wgsl_model_packed.specs.Units.{packed_declarations, packed_directive, packed_global_declaration, packed_member_node, packed_names, packed_parameter, packed_result, packed_unit};
ghost use Rattle.wgsl_span.specs.View.{spanned_view};
ghost use Rattle.wgsl_tree_attribute.specs.View.{attributes_view};
ghost use Rattle.wgsl_tree_expression.specs.View.{type_expression_view};
ghost use Rattle.wgsl_tree_packed.specs.Units.{packed_declaration_of, packed_directive_of};
ghost use Rattle.wgsl_tree_unit.specs.View.{diagnostic_directive_view, function_view, global_declaration_view, global_directive_view, member_view, parameter_view, struct_view, type_alias_view, unit_view};

use crate::attribute::{pack_attributed, pack_attributes_before};
use crate::expression::pack_type;
use crate::rules::{
    ALIAS, CONST_ASSERT, DECLARATIONS, DIAGNOSTIC_DIRECTIVE, DIRECTIVES, EMPTY_END, ENABLE, ENDED,
    FIRST_DECLARATION, FUNCTION, LAST_DIRECTIVE, LAST_MEMBER, MEMBER, MEMBERS, NAME, NAMES,
    NOTHING, PART, PARTS, REQUIRES, RESULT, STRUCT, UNIT, VOID, VOID_ITEM,
};
use crate::simple::{pack_declaration, pack_on_expression};
use crate::statement::pack_compound;
use crate::text::{pack_placed, pack_rule, pack_span, pack_text};
use crate::traits::{Pack, pack_list};
use crate::words::severity_word;
use std::alloc::{AllocError, Global};
use wgsl_tree_attribute::Attributes;
use wgsl_tree_expression::TypeExpression;
use wgsl_tree_unit::{
    DiagnosticDirective, FormalParameter, Function, GlobalDeclaration, GlobalDeclarationNode,
    GlobalDirective, Struct, StructMember, StructMemberNode, TranslationUnit, TypeAlias,
};

/// Returns the packed form of a module, unless an allocation fails. It has a capacity for some bytes
/// at first, which grows if the form is longer. Each declaration is dropped once it is written,
/// while the processor's cache has it.
pub fn packed_module(
    alloc: Global,
    unit: TranslationUnit,
    capacity: usize,
) -> Result<Vec<u8>, AllocError>
    ensures { IfOk result (λ bytes. bytes.items ≡ packed_unit (unit_view unit)) }
{
    let TranslationUnit {
        global_directives,
        global_declarations,
    } = unit;
    let mut bytes = Vec::with_capacity(alloc, capacity)?;
    pack_rule(UNIT, &mut bytes)?;
    pack_list(
        NOTHING,
        DIRECTIVES,
        LAST_DIRECTIVE,
        &global_directives,
        &mut bytes,
    )?;
    pack_declarations(global_declarations, &mut bytes)?;
    Ok(bytes)
}

impl Pack for GlobalDirective {
    ghost Plain = { plain.GlobalDirective };

    ghost view = { global_directive_view };

    ghost packed = { packed_directive };

    fn pack(&self, out: &mut Vec<u8>) -> Result<(), AllocError> {
        match self {
            GlobalDirective::Diagnostic(inner) => pack_diagnostic_directive(inner, out),
            GlobalDirective::Enable(inner) => {
                pack_attributed(ENABLE, &inner.attributes, out)?;
                pack_names(&inner.extensions, out)
            }
            GlobalDirective::Requires(inner) => {
                pack_attributed(REQUIRES, &inner.attributes, out)?;
                pack_names(&inner.extensions, out)
            }
        }
    }
}

impl Pack for GlobalDeclaration {
    ghost Plain = { plain.GlobalDeclaration };

    ghost view = { global_declaration_view };

    ghost packed = { packed_global_declaration };

    fn pack(&self, out: &mut Vec<u8>) -> Result<(), AllocError> {
        match self {
            GlobalDeclaration::Void => {
                pack_rule(ENDED, out)?;
                pack_rule(VOID, out)?;
                pack_rule(NOTHING, out)
            }
            GlobalDeclaration::Declaration(inner) => {
                pack_rule(ENDED, out)?;
                pack_declaration(inner, out)
            }
            GlobalDeclaration::TypeAlias(inner) => pack_alias(inner, out),
            GlobalDeclaration::Struct(inner) => pack_struct(inner, out),
            GlobalDeclaration::Function(inner) => pack_function(inner, out),
            GlobalDeclaration::ConstAssert(inner) => {
                pack_rule(ENDED, out)?;
                pack_on_expression(CONST_ASSERT, &inner.attributes, &inner.expression, out)
            }
        }
    }
}

impl Pack for StructMemberNode {
    ghost Plain = { Spanned plain.StructMember };

    ghost view = { spanned_view member_view };

    ghost packed = { packed_member_node };

    fn pack(&self, out: &mut Vec<u8>) -> Result<(), AllocError> {
        pack_span(self.span(), out)?;
        let member: &StructMember = self.node();
        pack_attributed(MEMBER, &member.attributes, out)?;
        pack_text(member.ident.name(), out)?;
        pack_type(&member.ty, out)
    }
}

impl Pack for FormalParameter {
    ghost Plain = { plain.FormalParameter };

    ghost view = { parameter_view };

    ghost packed = { packed_parameter };

    fn pack(&self, out: &mut Vec<u8>) -> Result<(), AllocError> {
        pack_rule(MEMBER, out)?;
        pack_attributes_before(&self.attributes, out)?;
        pack_text(self.ident.name(), out)?;
        pack_type(&self.ty, out)
    }
}

/// A name of an extension.
impl Pack for String {
    ghost Plain = { List ℕ };

    ghost view = { string_bytes };

    ghost packed = { packed_text };

    fn pack(&self, out: &mut Vec<u8>) -> Result<(), AllocError> {
        pack_text(self.as_str(), out)
    }
}

/// Writes names one after another.
fn pack_names(names: &Vec<String>, out: &mut Vec<u8>) -> Result<(), AllocError>
    ensures { OnOk result (out.new.items
        ≡ out.old.items ++ packed_names (map string_bytes names.now.items)) }
{
    pack_list(NOTHING, NAMES, NAME, names, out)
}

fn pack_diagnostic_directive(
    node: &DiagnosticDirective,
    out: &mut Vec<u8>,
) -> Result<(), AllocError>
    ensures { OnOk result (out.new.items ≡ out.old.items
        ++ packed_directive_of plain.diagnostic (diagnostic_directive_view node.now)) }
{
    pack_attributed(DIAGNOSTIC_DIRECTIVE, &node.attributes, out)?;
    pack_text(severity_word(node.severity), out)?;
    pack_text(node.rule_name.as_str(), out)
}

/// Writes declarations, of which it drops each then: the first that is not empty after one rule,
/// and those after it after another; of an empty one its span alone.
fn pack_declarations(
    declarations: Vec<GlobalDeclarationNode>,
    out: &mut Vec<u8>,
) -> Result<(), AllocError>
    ensures { OnOk result (out.new.items ≡ out.old.items
        ++ packed_declarations first_declaration_rule
        (map (spanned_view global_declaration_view) declarations.items)) }
{
    let mut rule = FIRST_DECLARATION;
    'declarations: for item in declarations {
        if item.node().is_void() {
            pack_placed(VOID_ITEM, item.span(), out)?;
            continue;
        }
        pack_placed(rule, item.span(), out)?;
        item.node().pack(out)?;
        rule = DECLARATIONS;
    }
    pack_rule(NOTHING, out)?;
    Ok(())
}

fn pack_alias(node: &TypeAlias, out: &mut Vec<u8>) -> Result<(), AllocError>
    ensures { OnOk result (out.new.items ≡ out.old.items
        ++ packed_declaration_of plain.type_alias (type_alias_view node.now)) }
{
    pack_attributed(ALIAS, &node.attributes, out)?;
    pack_text(node.ident.name(), out)?;
    pack_type(&node.ty, out)
}

fn pack_struct(node: &Struct, out: &mut Vec<u8>) -> Result<(), AllocError>
    ensures { OnOk result (out.new.items ≡ out.old.items
        ++ packed_declaration_of plain.structure (struct_view node.now)) }
{
    pack_attributed(STRUCT, &node.attributes, out)?;
    pack_text(node.ident.name(), out)?;
    pack_list(EMPTY_END, MEMBERS, LAST_MEMBER, &node.members, out)
}

fn pack_function(node: &Function, out: &mut Vec<u8>) -> Result<(), AllocError>
    ensures { OnOk result (out.new.items ≡ out.old.items
        ++ packed_declaration_of plain.function (function_view node.now)) }
{
    pack_attributed(FUNCTION, &node.attributes, out)?;
    pack_text(node.ident.name(), out)?;
    pack_list(NOTHING, PARTS, PART, &node.parameters, out)?;
    pack_result(&node.return_attributes, &node.return_type, out)?;
    pack_compound(&node.body, out)
}

/// Writes what a function returns; of attributes alone nothing.
fn pack_result(
    attributes: &Attributes,
    ty: &Option<TypeExpression>,
    out: &mut Vec<u8>,
) -> Result<(), AllocError>
    ensures { OnOk result (out.new.items ≡ out.old.items
        ++ packed_result (attributes_view attributes.now.items)
        (option_map type_expression_view ty.now)) }
{
    match ty {
        None => pack_rule(NOTHING, out),
        Some(ty) => {
            pack_rule(RESULT, out)?;
            pack_attributes_before(attributes, out)?;
            pack_type(ty, out)
        }
    }
}
