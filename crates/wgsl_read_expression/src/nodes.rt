//! Expressions that are made of what was read.
#![tactic(auto, unfolding(crate::proofs::Hints::definitions), using(crate::proofs::Hints::lemmas))]

ghost use Rattle.std.specs.Prelude.{◌≡◌, IfOk, map, option_map};
ghost use Rattle.wgsl_model.specs.Trees.Expressions as plain;
ghost use Rattle.wgsl_theory_grammar.specs.Factored.{with_operand};
ghost use Rattle.wgsl_tree_words.specs.View.{unary_operator_view, binary_operator_view};
ghost use Rattle.wgsl_tree_expression.specs.View.{ident_name, expression_view, expression_node_view, type_expression_view, template_arg_view};

use std::alloc::{AllocError, Global};
use wgsl_span::Spanned;
use wgsl_tree_expression::{
    BinaryExpression, Expression, ExpressionNode, FunctionCall, Ident, IndexingExpression,
    NamedComponentExpression, ParenthesizedExpression, TemplateArg, TemplateArgs, TypeExpression,
    UnaryExpression,
};
use wgsl_tree_words::{BinaryOperator, UnaryOperator};

/// Returns an expression in parentheses.
pub fn parenthesized(expression: ExpressionNode) -> Expression
    ensures { expression_view result ≡ plain.parenthesized (expression_node_view expression) }
{
    Expression::Parenthesized(ParenthesizedExpression { expression })
}

/// Returns a component of a base by its name.
pub fn named_component(base: ExpressionNode, component: Ident) -> Expression
    ensures { expression_view result
        ≡ plain.named_component (expression_node_view base) (ident_name component) }
{
    Expression::NamedComponent(NamedComponentExpression { base, component })
}

/// Returns a component of a base by an index.
pub fn indexing(base: ExpressionNode, index: ExpressionNode) -> Expression
    ensures { expression_view result
        ≡ plain.indexing (expression_node_view base) (expression_node_view index) }
{
    Expression::Indexing(IndexingExpression { base, index })
}

/// Returns an operand with an operator before it.
pub fn unary(operator: UnaryOperator, operand: ExpressionNode) -> Expression
    ensures { expression_view result
        ≡ plain.unary (unary_operator_view operator) (expression_node_view operand) }
{
    Expression::Unary(UnaryExpression { operator, operand })
}

/// Returns two operands with an operator between.
pub fn binary(left: ExpressionNode, operator: BinaryOperator, right: ExpressionNode) -> Expression
    ensures { expression_view result ≡ plain.binary
        (binary_operator_view operator) (expression_node_view left) (expression_node_view right) }
{
    Expression::Binary(BinaryExpression {
        operator,
        left,
        right,
    })
}

/// Returns a call with its arguments.
pub fn call(ty: TypeExpression, arguments: Vec<ExpressionNode>) -> Expression
    ensures { expression_view result ≡ plain.function_call (plain.call (type_expression_view ty)
        (plain.expressions_of (map expression_node_view arguments.items))) }
{
    Expression::FunctionCall(FunctionCall { ty, arguments })
}

/// Returns an expression as an argument of a template.
pub fn template_arg(expression: ExpressionNode) -> TemplateArg
    ensures { template_arg_view result ≡ expression_node_view expression }
{
    TemplateArg { expression }
}

/// Returns an identifier with the arguments of its template, if it has one.
pub fn type_expression(ident: Ident, template_args: TemplateArgs) -> TypeExpression
    ensures { type_expression_view result ≡ plain.type_expression (ident_name ident)
        (plain.template_of (option_map (λ args. map template_arg_view args.items) template_args)) }
{
    TypeExpression {
        ident,
        template_args,
    }
}

/// Returns two operands with an operator between, from the first one's start to the second one's
/// end.
pub fn join(
    alloc: Global,
    left: ExpressionNode,
    operator: BinaryOperator,
    right: ExpressionNode,
) -> Result<ExpressionNode, AllocError>
    ensures { IfOk result (λ node. expression_node_view node ≡ with_operand
        (binary_operator_view operator, expression_node_view right) (expression_node_view left)) }
{
    let span = left.span().extend(right.span());
    Ok(Spanned::new(alloc, binary(left, operator, right), span)?)
}
