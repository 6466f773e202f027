//! Expressions, calls and types by their parts.

ghost use Rattle.std.specs.Prelude.{◌≡◌, ◌++◌, OnOk};
ghost use Rattle.wgsl_model_packed.specs.Expressions.{component_rule_of, leftmost, packed_call, packed_expression, packed_expression_node, packed_type, unary_rule_of};
ghost use Rattle.wgsl_tree_expression.specs.View.{binary_expression_view, expression_node_view, expression_view, function_call_view, indexing_expression_view, named_component_expression_view, parenthesized_expression_view, template_arg_view, type_expression_view, unary_expression_view};
ghost use Rattle.wgsl_tree_packed.specs.Chains.{after_left};
ghost use Rattle.wgsl_tree_words.specs.View.{unary_operator_view};

use crate::chain::pack_leftmost;
use crate::literal::pack_literal;
use crate::rules::{
    BINARY, CALL, CHAIN, COMPONENT, COMPONENT_OF_INT, INDEX, NAME, NODE, NODES, NOTHING,
    PARENTHESIZED, TEMPLATE, UNARY, UNARY_APART,
};
use crate::text::{item_rule, pack_placed, pack_rule, pack_span, pack_text, pack_word};
use crate::words::{binary_operator_word, unary_operator_word};
use std::alloc::AllocError;
use wgsl_tree_expression::{
    BinaryExpression, Expression, ExpressionNode, FunctionCall, IndexingExpression,
    LiteralExpression, NamedComponentExpression, ParenthesizedExpression, TemplateArg,
    TypeExpression, UnaryExpression,
};
use wgsl_tree_words::UnaryOperator;

/// Writes the packed form of an expression and its span.
#[cycle(expressions)]
pub fn pack_expression_node(node: &ExpressionNode, out: &mut Vec<u8>) -> Result<(), AllocError>
    ensures { OnOk result (out.new.items
        ≡ out.old.items ++ packed_expression_node (expression_node_view node.now)) }
{
    pack_span(node.span(), out)?;
    pack_expression(node.node(), out)
}

/// Writes the packed form of an expression.
#[cycle(expressions)]
pub fn pack_expression(node: &Expression, out: &mut Vec<u8>) -> Result<(), AllocError>
    ensures { OnOk result (out.new.items
        ≡ out.old.items ++ packed_expression (expression_view node.now)) }
{
    match node {
        Expression::NamedComponent(_) | Expression::Indexing(_) | Expression::Binary(_) => {
            pack_rule(CHAIN, out)?;
            pack_first(node, out)?;
            pack_rule(NOTHING, out)
        }
        Expression::Literal(_)
        | Expression::Parenthesized(_)
        | Expression::Unary(_)
        | Expression::FunctionCall(_)
        | Expression::TypeOrIdentifier(_) => pack_first(node, out),
    }
}

/// Writes what is leftmost in an expression, and what follows it.
#[cycle(expressions)]
pub fn pack_first(node: &Expression, out: &mut Vec<u8>) -> Result<(), AllocError>
    ensures { OnOk result (out.new.items
        ≡ out.old.items ++ leftmost (expression_view node.now)) }
{
    match node {
        Expression::Literal(inner) => pack_literal(inner, out),
        Expression::Parenthesized(inner) => pack_parenthesized(inner, out),
        Expression::NamedComponent(inner) => {
            pack_leftmost(&inner.base, out)?;
            pack_component(inner, out)
        }
        Expression::Indexing(inner) => {
            pack_leftmost(&inner.base, out)?;
            pack_index(inner, out)
        }
        Expression::Unary(inner) => pack_unary(inner, out),
        Expression::Binary(inner) => {
            pack_leftmost(&inner.left, out)?;
            pack_right(inner, out)
        }
        Expression::FunctionCall(inner) => pack_call(inner, out),
        Expression::TypeOrIdentifier(inner) => pack_type(inner, out),
    }
}

/// Writes what is after the left side of an expression, with the span of that.
#[cycle(expressions)]
pub fn pack_after(node: &Expression, out: &mut Vec<u8>) -> Result<(), AllocError>
    ensures { OnOk result (out.new.items
        ≡ out.old.items ++ after_left (expression_view node.now)) }
{
    match node {
        Expression::NamedComponent(inner) => pack_component(inner, out),
        Expression::Indexing(inner) => pack_index(inner, out),
        Expression::Binary(inner) => pack_right(inner, out),
        Expression::Literal(_)
        | Expression::Parenthesized(_)
        | Expression::Unary(_)
        | Expression::FunctionCall(_)
        | Expression::TypeOrIdentifier(_) => Ok(()),
    }
}

#[cycle(expressions)]
fn pack_parenthesized(node: &ParenthesizedExpression, out: &mut Vec<u8>) -> Result<(), AllocError>
    ensures { OnOk result (out.new.items
        ≡ out.old.items ++ leftmost (parenthesized_expression_view node.now)) }
{
    pack_rule(PARENTHESIZED, out)?;
    pack_expression_node(&node.expression, out)
}

/// Writes a component after the span of what it is taken of.
fn pack_component(node: &NamedComponentExpression, out: &mut Vec<u8>) -> Result<(), AllocError>
    ensures { OnOk result (out.new.items
        ≡ out.old.items ++ after_left (named_component_expression_view node.now)) }
{
    let rule = component_rule(node.base.node());
    pack_placed(rule, node.base.span(), out)?;
    pack_text(node.component.name(), out)
}

/// Writes an index after the span of what is indexed.
#[cycle(expressions)]
fn pack_index(node: &IndexingExpression, out: &mut Vec<u8>) -> Result<(), AllocError>
    ensures { OnOk result (out.new.items
        ≡ out.old.items ++ after_left (indexing_expression_view node.now)) }
{
    pack_placed(INDEX, node.base.span(), out)?;
    pack_expression_node(&node.index, out)
}

#[cycle(expressions)]
fn pack_unary(node: &UnaryExpression, out: &mut Vec<u8>) -> Result<(), AllocError>
    ensures { OnOk result (out.new.items
        ≡ out.old.items ++ leftmost (unary_expression_view node.now)) }
{
    let rule = unary_rule(node.operator, node.operand.node());
    pack_word(rule, unary_operator_word(node.operator), out)?;
    pack_expression_node(&node.operand, out)
}

/// Writes an operator and its right operand after the span of the left one.
#[cycle(expressions)]
fn pack_right(node: &BinaryExpression, out: &mut Vec<u8>) -> Result<(), AllocError>
    ensures { OnOk result (out.new.items
        ≡ out.old.items ++ after_left (binary_expression_view node.now)) }
{
    pack_placed(BINARY, node.left.span(), out)?;
    pack_text(binary_operator_word(node.operator), out)?;
    pack_expression_node(&node.right, out)
}

/// Writes the packed form of a call.
#[cycle(expressions)]
pub fn pack_call(node: &FunctionCall, out: &mut Vec<u8>) -> Result<(), AllocError>
    ensures { OnOk result (out.new.items
        ≡ out.old.items ++ packed_call (function_call_view node.now)) }
{
    pack_rule(CALL, out)?;
    pack_type(&node.ty, out)?;
    let mut left = node.arguments.len();
    if left == 0 {
        return pack_rule(NOTHING, out);
    }
    'arguments: for item in &node.arguments {
        left -= 1;
        pack_rule(item_rule(NODES, NODE, left), out)?;
        pack_expression_node(item, out)?;
    }
    Ok(())
}

/// Writes the packed form of a type or an identifier.
#[cycle(expressions)]
pub fn pack_type(node: &TypeExpression, out: &mut Vec<u8>) -> Result<(), AllocError>
    ensures { OnOk result (out.new.items
        ≡ out.old.items ++ packed_type (type_expression_view node.now)) }
{
    let Some(template_args) = &node.template_args else {
        return pack_word(NAME, node.ident.name(), out);
    };
    pack_word(TEMPLATE, node.ident.name(), out)?;
    let mut left = template_args.len();
    if left == 0 {
        return pack_rule(NOTHING, out);
    }
    'template_args: for item in template_args {
        left -= 1;
        pack_rule(item_rule(NODES, NODE, left), out)?;
        pack_template_arg(item, out)?;
    }
    Ok(())
}

#[cycle(expressions)]
fn pack_template_arg(node: &TemplateArg, out: &mut Vec<u8>) -> Result<(), AllocError>
    ensures { OnOk result (out.new.items
        ≡ out.old.items ++ packed_expression_node (template_arg_view node.now)) }
{
    pack_expression_node(&node.expression, out)
}

/// Returns the rule of a component, by what it is taken of.
fn component_rule(base: &Expression) -> u8
    ensures { result ≡ component_rule_of (expression_view base.now) }
{
    match base {
        Expression::Literal(LiteralExpression::AbstractInt(_)) => COMPONENT_OF_INT,
        Expression::Literal(_)
        | Expression::Parenthesized(_)
        | Expression::NamedComponent(_)
        | Expression::Indexing(_)
        | Expression::Unary(_)
        | Expression::Binary(_)
        | Expression::FunctionCall(_)
        | Expression::TypeOrIdentifier(_) => COMPONENT,
    }
}

/// Returns the rule of an operator before an operand.
fn unary_rule(operator: UnaryOperator, operand: &Expression) -> u8
    ensures { result ≡ unary_rule_of (unary_operator_view operator) (expression_view operand.now) }
{
    match operand {
        Expression::Unary(inner) => match (operator, inner.operator) {
            (UnaryOperator::Negation, UnaryOperator::Negation) => UNARY_APART,
            (UnaryOperator::AddressOf, UnaryOperator::AddressOf) => UNARY_APART,
            _ => UNARY,
        },
        Expression::Literal(_)
        | Expression::Parenthesized(_)
        | Expression::NamedComponent(_)
        | Expression::Indexing(_)
        | Expression::Binary(_)
        | Expression::FunctionCall(_)
        | Expression::TypeOrIdentifier(_) => UNARY,
    }
}
