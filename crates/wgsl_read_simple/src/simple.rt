//! Calls, assignments, increments and decrements, without their `;`.
#![tactic(auto, unfolding(crate::proofs::Hints::definitions), using(crate::proofs::Hints::lemmas))]

ghost use Rattle.std.specs.Prelude.{◌≡◌, [], ◌∷◌, map, option_map};
ghost use Rattle.grammar.specs.States.{is_any};
ghost use Rattle.wgsl_model.specs.Tokens.ClassTable as class;
ghost use Rattle.wgsl_model.specs.Trees.Statements.{statement};
ghost use Rattle.wgsl_tree_words.specs.View.{assignment_operator_view};
ghost use Rattle.wgsl_tree_expression.specs.View.{ident_name, expression_node_view, template_arg_view};
ghost use Rattle.wgsl_tree_attribute.specs.View.{attributes_view};
ghost use Rattle.wgsl_tree_statement.specs.View.{statement_view};
ghost use Rattle.wgsl_theory_grammar.specs.Factored.{FactoredSymbol.further, Further.left_side_rest, Further.simple_part, Further.phony_part, Further.parenthesized_statement};
ghost use Rattle.wgsl_theory_grammar.specs.Reader.{reader};
ghost use Rattle.wgsl_read_cursor.specs.Reading.{state, Parses, ParsesNullable};
ghost use Rattle.wgsl_read_attribute.specs.After.{after_attributes};
ghost use Rattle.wgsl_read_simple.specs.Given.{given};
ghost use Rattle.wgsl_read_simple.specs.SimpleStatements.{named_statement_at, maybe_template_list_at, call_rest_at, assignment_operator_at, underscore_left_side_at, assignment_classes};

use crate::left_side::{
    begins_name, begins_prefixed_left_side, left_name, parse_left_side_in_parentheses,
    parse_prefixed_left_side,
};
use crate::parse_initializer;
use std::alloc::Global;
use wgsl_lex_token::kind::TokenKind;
use wgsl_read_cursor::{Cursor, Expected, Fault};
use wgsl_read_expression::{
    parse_arguments, parse_components, parse_expression, parse_ident, parse_template_list,
};
use wgsl_tree_attribute::Attributes;
use wgsl_tree_expression::{ExpressionNode, FunctionCall, Ident, TemplateArg, TypeExpression};
use wgsl_tree_simple::{
    AssignmentStatement, DecrementStatement, FunctionCallStatement, IncrementStatement,
};
use wgsl_tree_statement::Statement;
use wgsl_tree_words::AssignmentOperator;

/// What begins a call, an assignment, an increment or a decrement after attributes.
const SIMPLE_PART: Expected = Expected::OneOf(&[
    TokenKind::SymAnd,
    TokenKind::SymAttr,
    TokenKind::SymStar,
    TokenKind::SymUnderscore,
    TokenKind::Ident,
]);

/// What can be after a left side.
const LEFT_SIDE_REST: Expected = Expected::OneOf(&[
    TokenKind::SymBracketLeft,
    TokenKind::SymEqual,
    TokenKind::SymMinusMinus,
    TokenKind::SymPeriod,
    TokenKind::SymPlusPlus,
    TokenKind::SymPlusEqual,
    TokenKind::SymMinusEqual,
    TokenKind::SymTimesEqual,
    TokenKind::SymDivisionEqual,
    TokenKind::SymModuloEqual,
    TokenKind::SymAndEqual,
    TokenKind::SymOrEqual,
    TokenKind::SymXorEqual,
    TokenKind::SymShiftRightAssign,
    TokenKind::SymShiftLeftAssign,
]);

/// Reads a call, an assignment, an increment or a decrement, after its attributes. Its left side
/// begins with no `(`.
pub fn parse_simple_part(
    alloc: Global,
    tokens: &mut Cursor,
    attributes: Attributes,
) -> Result<Statement, Fault>
    ensures { Parses statement_view result tokens.old tokens.new (after_attributes statement
        (attributes_view attributes.items) (reader (further simple_part))) }
{
    if begins_name(tokens) {
        return parse_named_statement(alloc, tokens, attributes);
    }
    if begins_prefixed_left_side(tokens) {
        let left = parse_prefixed_left_side(alloc, tokens)?;
        return parse_left_side_rest(alloc, tokens, left, attributes);
    }
    if tokens.is_at(TokenKind::SymUnderscore) {
        return parse_phony_part(alloc, tokens, attributes);
    }
    Err(tokens.refuse(SIMPLE_PART))
}

/// Reads an assignment, an increment or a decrement whose left side begins with `(`. It has no
/// attributes.
pub fn parse_parenthesized_statement(alloc: Global, tokens: &mut Cursor) -> Result<Statement, Fault>
    ensures { Parses statement_view result tokens.old tokens.new
        (after_attributes statement [] (reader (further parenthesized_statement))) }
{
    let left = parse_left_side_in_parentheses(alloc, tokens)?;
    parse_left_side_rest(alloc, tokens, left, Vec::new(alloc))
}

/// A statement that begins with a name, after its attributes.
fn parse_named_statement(
    alloc: Global,
    tokens: &mut Cursor,
    attributes: Attributes,
) -> Result<Statement, Fault>
    ensures { Parses statement_view result tokens.old tokens.new
        (after_attributes statement (attributes_view attributes.items) named_statement_at) }
{
    let start = tokens.start();
    let ident = parse_ident(tokens)?;
    if begins_call_rest(tokens) {
        return parse_call_rest(alloc, tokens, ident, attributes);
    }
    let name = left_name(alloc, ident, tokens.span_from(start))?;
    let left = parse_components(alloc, tokens, name)?;
    parse_left_side_rest(alloc, tokens, left, attributes)
}

/// Whether the next token makes the name before it that of a call.
fn begins_call_rest(tokens: &Cursor) -> bool
    ensures { result
        ≡ is_any (class.TemplateArgsStart ∷ (class.SymParenLeft ∷ [])) (state tokens.now) }
{
    tokens.is_at(TokenKind::TemplateArgsStart) || tokens.is_at(TokenKind::SymParenLeft)
}

/// What follows the name in a call.
fn parse_call_rest(
    alloc: Global,
    tokens: &mut Cursor,
    ident: Ident,
    attributes: Attributes,
) -> Result<Statement, Fault>
    ensures { Parses statement_view result tokens.old tokens.new (after_attributes statement
        (attributes_view attributes.items) (call_rest_at (ident_name ident))) }
{
    let template_args = parse_maybe_template_list(alloc, tokens)?;
    let arguments = parse_arguments(alloc, tokens)?;
    Ok(Statement::FunctionCall(FunctionCallStatement {
        attributes,
        call: FunctionCall {
            ty: TypeExpression {
                ident,
                template_args,
            },
            arguments,
        },
    }))
}

/// A template list, or none.
fn parse_maybe_template_list(
    alloc: Global,
    tokens: &mut Cursor,
) -> Result<Option<Vec<TemplateArg>>, Fault>
    ensures { ParsesNullable (option_map (λ args.
        map template_arg_view args.items)) result tokens.old tokens.new maybe_template_list_at }
{
    if !tokens.is_at(TokenKind::TemplateArgsStart) {
        return Ok(None);
    }
    Ok(Some(parse_template_list(alloc, tokens)?))
}

/// What follows a left side: an assignment to it, or `++` or `--`.
fn parse_left_side_rest(
    alloc: Global,
    tokens: &mut Cursor,
    left: ExpressionNode,
    attributes: Attributes,
) -> Result<Statement, Fault>
    ensures { Parses statement_view result tokens.old tokens.new
        (after_attributes statement (attributes_view attributes.items)
        (given (expression_node_view left) (reader (further left_side_rest)))) }
{
    if begins_assignment(tokens) {
        let operator = parse_assignment_operator(tokens)?;
        let rhs = parse_expression(alloc, tokens)?;
        return Ok(Statement::Assignment(AssignmentStatement {
            attributes,
            operator,
            lhs: left,
            rhs,
        }));
    }
    if tokens.eat(TokenKind::SymPlusPlus) {
        return Ok(Statement::Increment(IncrementStatement {
            attributes,
            expression: left,
        }));
    }
    if tokens.eat(TokenKind::SymMinusMinus) {
        return Ok(Statement::Decrement(DecrementStatement {
            attributes,
            expression: left,
        }));
    }
    Err(tokens.refuse(LEFT_SIDE_REST))
}

/// Whether the next token is `=` or a compound operator.
fn begins_assignment(tokens: &Cursor) -> bool
    ensures { result ≡ is_any assignment_classes (state tokens.now) }
{
    tokens.is_at(TokenKind::SymEqual)
        || tokens.is_at(TokenKind::SymPlusEqual)
        || tokens.is_at(TokenKind::SymMinusEqual)
        || tokens.is_at(TokenKind::SymTimesEqual)
        || tokens.is_at(TokenKind::SymDivisionEqual)
        || tokens.is_at(TokenKind::SymModuloEqual)
        || tokens.is_at(TokenKind::SymAndEqual)
        || tokens.is_at(TokenKind::SymOrEqual)
        || tokens.is_at(TokenKind::SymXorEqual)
        || tokens.is_at(TokenKind::SymShiftRightAssign)
        || tokens.is_at(TokenKind::SymShiftLeftAssign)
}

/// `=` or a compound operator.
fn parse_assignment_operator(tokens: &mut Cursor) -> Result<AssignmentOperator, Fault>
    ensures { Parses assignment_operator_view result tokens.old tokens.new assignment_operator_at }
{
    if tokens.eat(TokenKind::SymEqual) {
        return Ok(AssignmentOperator::Equal);
    }
    if tokens.eat(TokenKind::SymPlusEqual) {
        return Ok(AssignmentOperator::PlusEqual);
    }
    if tokens.eat(TokenKind::SymMinusEqual) {
        return Ok(AssignmentOperator::MinusEqual);
    }
    if tokens.eat(TokenKind::SymTimesEqual) {
        return Ok(AssignmentOperator::TimesEqual);
    }
    if tokens.eat(TokenKind::SymDivisionEqual) {
        return Ok(AssignmentOperator::DivisionEqual);
    }
    if tokens.eat(TokenKind::SymModuloEqual) {
        return Ok(AssignmentOperator::ModuloEqual);
    }
    if tokens.eat(TokenKind::SymAndEqual) {
        return Ok(AssignmentOperator::AndEqual);
    }
    if tokens.eat(TokenKind::SymOrEqual) {
        return Ok(AssignmentOperator::OrEqual);
    }
    if tokens.eat(TokenKind::SymXorEqual) {
        return Ok(AssignmentOperator::XorEqual);
    }
    if tokens.eat(TokenKind::SymShiftRightAssign) {
        return Ok(AssignmentOperator::ShiftRightAssign);
    }
    tokens.expect(TokenKind::SymShiftLeftAssign)?;
    Ok(AssignmentOperator::ShiftLeftAssign)
}

/// An assignment to `_`, after its attributes.
fn parse_phony_part(
    alloc: Global,
    tokens: &mut Cursor,
    attributes: Attributes,
) -> Result<Statement, Fault>
    ensures { Parses statement_view result tokens.old tokens.new (after_attributes statement
        (attributes_view attributes.items) (reader (further phony_part))) }
{
    let lhs = parse_underscore(alloc, tokens)?;
    let rhs = parse_initializer(alloc, tokens)?;
    Ok(Statement::Assignment(AssignmentStatement {
        attributes,
        operator: AssignmentOperator::Equal,
        lhs,
        rhs,
    }))
}

/// `_` as a left side.
fn parse_underscore(alloc: Global, tokens: &mut Cursor) -> Result<ExpressionNode, Fault>
    ensures { Parses expression_node_view result tokens.old tokens.new underscore_left_side_at }
{
    let start = tokens.start();
    tokens.expect(TokenKind::SymUnderscore)?;
    let ident = Ident::new(String::from_str(alloc, "_")?);
    Ok(left_name(alloc, ident, tokens.span_from(start))?)
}
