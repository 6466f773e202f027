//! Declarations of values, and statements that hold no others.

ghost use Rattle.std.specs.Prelude.{◌≡◌, ◌++◌, ◌∷◌, Option, OnOk};
ghost use Rattle.wgsl_model.specs.Trees.Attributed.{Attributed};
ghost use Rattle.wgsl_model.specs.Trees.NamedValues as plain_values;
ghost use Rattle.wgsl_model.specs.Trees.Statements as plain;
ghost use Rattle.wgsl_model_packed.specs.Attributes.{packed_attribute_line};
ghost use Rattle.wgsl_model_packed.specs.Expressions.{packed_expression_node};
ghost use Rattle.wgsl_model_packed.specs.Statements.{packed_access_mode, packed_break_if, packed_kind, packed_selector, packed_var_template};
ghost use Rattle.wgsl_tree_attribute.specs.View.{attributes_view};
ghost use Rattle.wgsl_tree_expression.specs.View.{expression_node_view};
ghost use Rattle.wgsl_tree_packed.specs.Statements.{packed_unended_of};
ghost use Rattle.wgsl_tree_simple.specs.View.{assignment_view, break_if_view, call_statement_view, declaration_kind_view, declaration_view, return_view, selector_view, var_template_view};
ghost use Rattle.wgsl_tree_words.specs.View.{access_mode_view};

use crate::attribute::pack_attributed;
use crate::expression::{pack_call, pack_expression_node};
use crate::rules::{
    ASSIGNMENT, BREAK_IF, CALL_STATEMENT, DECLARATION, DEFAULT, FURTHER_WORD, INITIALIZER, NAME,
    NODE, RETURN, RETURNED, TYPED, VAR, VAR_TEMPLATE,
};
use crate::text::{pack_rule, pack_text, pack_word};
use crate::traits::{Pack, pack_optional};
use crate::words::{access_mode_word, address_space_word, assignment_operator_word};
use std::alloc::AllocError;
use wgsl_tree_attribute::Attributes;
use wgsl_tree_expression::ExpressionNode;
use wgsl_tree_simple::{
    AssignmentStatement, BreakIfStatement, CaseSelector, Declaration, DeclarationKind,
    FunctionCallStatement, ReturnStatement,
};
use wgsl_tree_words::{AccessMode, AddressSpace};

impl Pack for AccessMode {
    ghost Plain = { plain_values.AccessMode };

    ghost view = { access_mode_view };

    ghost packed = { packed_access_mode };

    fn pack(&self, out: &mut Vec<u8>) -> Result<(), AllocError> {
        pack_text(access_mode_word(*self), out)
    }
}

impl Pack for (AddressSpace, Option<AccessMode>) {
    ghost Plain = { plain_values.AddressSpace × Option plain_values.AccessMode };

    ghost view = { var_template_view };

    ghost packed = { packed_var_template };

    fn pack(&self, out: &mut Vec<u8>) -> Result<(), AllocError> {
        pack_text(address_space_word(self.0), out)?;
        pack_optional(FURTHER_WORD, &self.1, out)
    }
}

impl Pack for CaseSelector {
    ghost Plain = { plain.CaseSelector };

    ghost view = { selector_view };

    ghost packed = { packed_selector };

    fn pack(&self, out: &mut Vec<u8>) -> Result<(), AllocError> {
        match self {
            CaseSelector::Default => pack_rule(DEFAULT, out),
            CaseSelector::Expression(expression) => {
                pack_rule(NODE, out)?;
                pack_expression_node(expression, out)
            }
        }
    }
}

impl Pack for BreakIfStatement {
    ghost Plain = { Attributed plain.BreakIfStatement };

    ghost view = { break_if_view };

    ghost packed = { packed_break_if };

    fn pack(&self, out: &mut Vec<u8>) -> Result<(), AllocError> {
        pack_on_expression(BREAK_IF, &self.attributes, &self.expression, out)
    }
}

/// Writes the number of a rule, attributes on a line of their own, and an expression.
pub fn pack_on_expression(
    rule: u8,
    attributes: &Attributes,
    expression: &ExpressionNode,
    out: &mut Vec<u8>,
) -> Result<(), AllocError>
    ensures { OnOk result (out.new.items ≡ out.old.items
        ++ (rule ∷ (packed_attribute_line (attributes_view attributes.now.items)
        ++ packed_expression_node (expression_node_view expression.now)))) }
{
    pack_attributed(rule, attributes, out)?;
    pack_expression_node(expression, out)
}

/// Writes the declaration of a value, without the `;` that ends it.
pub fn pack_declaration(node: &Declaration, out: &mut Vec<u8>) -> Result<(), AllocError>
    ensures { OnOk result (out.new.items ≡ out.old.items
        ++ packed_unended_of plain.declaration (declaration_view node.now)) }
{
    pack_attributed(DECLARATION, &node.attributes, out)?;
    pack_kind(node.kind, out)?;
    pack_text(node.ident.name(), out)?;
    pack_optional(TYPED, &node.ty, out)?;
    pack_optional(INITIALIZER, &node.initializer, out)
}

fn pack_kind(kind: DeclarationKind, out: &mut Vec<u8>) -> Result<(), AllocError>
    ensures { OnOk result (out.new.items
        ≡ out.old.items ++ packed_kind (declaration_kind_view kind)) }
{
    match kind {
        DeclarationKind::Const => pack_word(NAME, "const", out),
        DeclarationKind::Override => pack_word(NAME, "override", out),
        DeclarationKind::Let => pack_word(NAME, "let", out),
        DeclarationKind::Var(template) => {
            pack_rule(VAR, out)?;
            pack_optional(VAR_TEMPLATE, &template, out)
        }
    }
}

/// Writes an assignment, without the `;` that ends it.
pub fn pack_assignment(node: &AssignmentStatement, out: &mut Vec<u8>) -> Result<(), AllocError>
    ensures { OnOk result (out.new.items ≡ out.old.items
        ++ packed_unended_of plain.assignment (assignment_view node.now)) }
{
    pack_on_expression(ASSIGNMENT, &node.attributes, &node.lhs, out)?;
    pack_text(assignment_operator_word(node.operator), out)?;
    pack_expression_node(&node.rhs, out)
}

/// Writes a `return`, without the `;` that ends it.
pub fn pack_return(node: &ReturnStatement, out: &mut Vec<u8>) -> Result<(), AllocError>
    ensures { OnOk result (out.new.items ≡ out.old.items
        ++ packed_unended_of plain.return_statement (return_view node.now)) }
{
    pack_attributed(RETURN, &node.attributes, out)?;
    pack_optional(RETURNED, &node.expression, out)
}

/// Writes a call alone, without the `;` that ends it.
pub fn pack_call_statement(
    node: &FunctionCallStatement,
    out: &mut Vec<u8>,
) -> Result<(), AllocError>
    ensures { OnOk result (out.new.items ≡ out.old.items
        ++ packed_unended_of plain.function_call_statement (call_statement_view node.now)) }
{
    pack_attributed(CALL_STATEMENT, &node.attributes, out)?;
    pack_call(&node.call, out)
}
