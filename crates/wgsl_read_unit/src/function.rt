//! Reading functions.
#![tactic(auto, unfolding(crate::proofs::Hints::definitions), using(crate::proofs::Hints::lemmas))]

ghost use Rattle.std.specs.Prelude.{◌≡◌, map, option_map};
ghost use Rattle.wgsl_model.specs.Trees.Attributed.{with_attributes};
ghost use Rattle.wgsl_model.specs.Grammar.Symbols.{Symbol.formal_parameter};
ghost use Rattle.wgsl_tree_expression.specs.View.{type_expression_view};
ghost use Rattle.wgsl_tree_attribute.specs.View.{attributes_view};
ghost use Rattle.wgsl_tree_unit.specs.View.{global_declaration_view, parameter_view};
ghost use Rattle.wgsl_theory_grammar.specs.Factored.{FactoredSymbol.of, FactoredSymbol.further, Further.function_part, Further.parameter_rest};
ghost use Rattle.wgsl_theory_grammar.specs.Reader.{reader};
ghost use Rattle.wgsl_read_cursor.specs.Reading.{Parses, ParsesNullable};
ghost use Rattle.wgsl_read_attribute.specs.After.{after_attributes};
ghost use Rattle.wgsl_read_unit.specs.Parts.{return_part_at};
ghost use Rattle.wgsl_read_unit.specs.Results.{returned_view, return_attributes, return_type};

use std::alloc::Global;
use wgsl_lex_token::kind::TokenKind;
use wgsl_read_attribute::parse_attributes;
use wgsl_read_cursor::{Cursor, Fault};
use wgsl_read_expression::{parse_ident, parse_type_specifier};
use wgsl_read_statement::parse_compound_statement;
use wgsl_tree_attribute::Attributes;
use wgsl_tree_expression::TypeExpression;
use wgsl_tree_unit::{FormalParameter, Function, GlobalDeclaration};

/// Reads a function after its attributes.
pub fn parse_function_part(
    alloc: Global,
    tokens: &mut Cursor,
    attributes: Attributes,
) -> Result<GlobalDeclaration, Fault>
    ensures { Parses global_declaration_view result tokens.old tokens.new
        (after_attributes with_attributes
        (attributes_view attributes.items) (reader (further function_part))) }
{
    tokens.expect(TokenKind::KwFn)?;
    let ident = parse_ident(tokens)?;
    tokens.expect(TokenKind::SymParenLeft)?;
    let parameters = parse_parameters(alloc, tokens)?;
    let returned = parse_return_part(alloc, tokens)?;
    let body = parse_compound_statement(alloc, tokens)?;
    let (return_attributes, return_type) = split_return_part(alloc, returned);
    Ok(GlobalDeclaration::Function(Function {
        attributes,
        ident,
        parameters,
        return_attributes,
        return_type,
        body,
    }))
}

/// Parameters, none too, with a comma after each, or after each but the last, and the `)` after
/// them.
fn parse_parameters(alloc: Global, tokens: &mut Cursor) -> Result<Vec<FormalParameter>, Fault>
    ensures { Parses (λ v. map parameter_view v.items) result tokens.old tokens.new
        (reader (further parameter_rest)) }
{
    let mut parameters = Vec::new(alloc);
    'parameters: while !tokens.eat(TokenKind::SymParenRight) {
        parameters.push(parse_formal_parameter(alloc, tokens)?)?;
        if !tokens.eat(TokenKind::SymComma) {
            tokens.expect(TokenKind::SymParenRight)?;
            break;
        }
    }
    Ok(parameters)
}

fn parse_formal_parameter(alloc: Global, tokens: &mut Cursor) -> Result<FormalParameter, Fault>
    ensures { Parses parameter_view result tokens.old tokens.new (reader (of formal_parameter)) }
{
    let attributes = parse_attributes(alloc, tokens)?;
    let ident = parse_ident(tokens)?;
    tokens.expect(TokenKind::SymColon)?;
    let ty = parse_type_specifier(alloc, tokens)?;
    Ok(FormalParameter {
        attributes,
        ident,
        ty,
    })
}

/// The attributes and the type of what a function returns after a `->`, or none.
fn parse_return_part(
    alloc: Global,
    tokens: &mut Cursor,
) -> Result<Option<(Attributes, TypeExpression)>, Fault>
    ensures { ParsesNullable returned_view result tokens.old tokens.new return_part_at }
{
    if !tokens.eat(TokenKind::SymArrow) {
        return Ok(None);
    }
    let attributes = parse_attributes(alloc, tokens)?;
    let ty = parse_type_specifier(alloc, tokens)?;
    Ok(Some((attributes, ty)))
}

/// The attributes, none where nothing is returned, and the type.
fn split_return_part(
    alloc: Global,
    returned: Option<(Attributes, TypeExpression)>,
) -> (Attributes, Option<TypeExpression>)
    ensures attributes { attributes_view result.0.items
        ≡ return_attributes (returned_view returned) }
    ensures ty { option_map type_expression_view result.1 ≡ return_type (returned_view returned) }
{
    match returned {
        None => (Vec::new(alloc), None),
        Some((attributes, ty)) => (attributes, Some(ty)),
    }
}
