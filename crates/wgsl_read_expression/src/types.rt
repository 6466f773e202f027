//! Types and template lists.
#![tactic(auto, unfolding(crate::proofs::Hints::definitions), using(crate::proofs::Hints::lemmas))]

ghost use Rattle.std.specs.Prelude.{map, option_map};
ghost use Rattle.wgsl_model.specs.Grammar.Symbols.{Symbol.type_specifier, Symbol.template_list};
ghost use Rattle.wgsl_theory_grammar.specs.Factored.{FactoredSymbol.of};
ghost use Rattle.wgsl_theory_grammar.specs.Reader.{reader};
ghost use Rattle.wgsl_tree_expression.specs.View.{type_expression_view, template_arg_view};
ghost use Rattle.wgsl_read_cursor.specs.Reading.{Parses, ParsesNullable};
ghost use Rattle.wgsl_read_expression.specs.Rules.{optional_template_list_at};

use crate::expression::parse_expression;
use crate::nodes::{template_arg, type_expression};
use crate::terminals::parse_ident;
use std::alloc::Global;
use wgsl_lex_token::kind::TokenKind;
use wgsl_read_cursor::{Cursor, Fault};
use wgsl_tree_expression::{TemplateArg, TemplateArgs, TypeExpression};

/// Reads a type, or an identifier with the arguments of its template.
#[cycle(expression)]
pub fn parse_type_specifier(alloc: Global, tokens: &mut Cursor) -> Result<TypeExpression, Fault>
    ensures { Parses type_expression_view result tokens.old tokens.new
        (reader (of type_specifier)) }
{
    let ident = parse_ident(tokens)?;
    let template_args = parse_optional_template_list(alloc, tokens)?;
    Ok(type_expression(ident, template_args))
}

/// A template list where one begins.
#[cycle(expression)]
fn parse_optional_template_list(alloc: Global, tokens: &mut Cursor) -> Result<TemplateArgs, Fault>
    ensures { ParsesNullable (λ args. option_map (λ args. map template_arg_view args.items) args) result tokens.old tokens.new optional_template_list_at }
{
    if !tokens.is_at(TokenKind::TemplateArgsStart) {
        return Ok(None);
    }
    Ok(Some(parse_template_list(alloc, tokens)?))
}

/// Reads a template list.
#[cycle(expression)]
pub fn parse_template_list(alloc: Global, tokens: &mut Cursor) -> Result<Vec<TemplateArg>, Fault>
    ensures { Parses (λ args. map template_arg_view args.items) result tokens.old tokens.new
        (reader (of template_list)) }
{
    tokens.expect(TokenKind::TemplateArgsStart)?;
    let mut arguments = Vec::with_capacity(alloc, 1)?;
    'arguments: loop {
        let expression = parse_expression(alloc, tokens)?;
        arguments.push(template_arg(expression))?;
        if !tokens.eat(TokenKind::SymComma) {
            tokens.expect(TokenKind::TemplateArgsEnd)?;
            return Ok(arguments);
        }
        if tokens.eat(TokenKind::TemplateArgsEnd) {
            return Ok(arguments);
        }
    }
}
