//! The kinds of variables, and the names and types of values (WGSL, "Variable and Value Declarations").
#![tactic(auto, unfolding(crate::proofs::Parts::definitions), using(crate::proofs::Parts::lemmas))]

ghost use Rattle.std.specs.Prelude.{◌≡◌, map, MatchResult, Some, option_map};
ghost use Rattle.wgsl_model.specs.Grammar.Checks.{right, wrong, untemplated_word, space_and_mode, space_in_template};
ghost use Rattle.wgsl_model.specs.Grammar.Symbols.{Symbol.typed_ident};
ghost use Rattle.wgsl_model.specs.Trees.NamedValues.{address_spaces};
ghost use Rattle.wgsl_tree_words.specs.View.{address_space_view, access_mode_view};
ghost use Rattle.wgsl_theory_grammar.specs.Reader.{reader};
ghost use Rattle.wgsl_theory_grammar.specs.Factored.{FactoredSymbol.of};
ghost use Rattle.wgsl_tree_expression.specs.View.{ident_name, expression_node_view, template_arg_view, type_expression_view};
ghost use Rattle.wgsl_tree_simple.specs.View.{declaration_kind_view, var_template_view};
ghost use Rattle.wgsl_read_cursor.specs.Reading.{Parses};
ghost use Rattle.wgsl_read_attribute.specs.Counted.{space_with_mode};
ghost use Rattle.wgsl_read_simple.specs.VarKinds.{var_kind_at};

use std::alloc::Global;
use wgsl_error::{Error, ErrorKind};
use wgsl_lex_token::kind::TokenKind;
use wgsl_read_attribute::{one_to_three, word_access_mode, word_address_space};
use wgsl_read_cursor::{Cursor, Fault};
use wgsl_read_expression::{parse_ident, parse_template_list, parse_type_specifier};
use wgsl_tree_expression::{ExpressionNode, Ident, TemplateArg, TypeExpression};
use wgsl_tree_simple::DeclarationKind;
use wgsl_tree_words::{AccessMode, AddressSpace};

/// Reads `var` and its template.
pub fn parse_var_kind(alloc: Global, tokens: &mut Cursor) -> Result<DeclarationKind, Fault>
    ensures { Parses declaration_kind_view result tokens.old tokens.new var_kind_at }
{
    let start = tokens.start();
    tokens.expect(TokenKind::KwVar)?;
    if !tokens.is_at(TokenKind::TemplateArgsStart) {
        return Ok(DeclarationKind::Var(None));
    }
    let template = parse_template_list(alloc, tokens)?;
    match address_space(template) {
        Ok(space) => Ok(DeclarationKind::Var(Some(space))),
        Err(text) => Err(Fault::checked(
            alloc,
            Error {
                error: ErrorKind::VarTemplate(text),
                span: tokens.span_from(start),
            },
        )),
    }
}

/// The address space and the access mode that the template of a `var` names, or what is wrong with it.
fn address_space(
    template: Vec<TemplateArg>,
) -> Result<(AddressSpace, Option<AccessMode>), &'static str>
    ensures { MatchResult result (λ space. space_in_template (map template_arg_view template.items)
        ≡ right (var_template_view space)) (λ text.
        space_in_template (map template_arg_view template.items) ≡ wrong text.now) }
{
    match one_to_three(template) {
        Some((space, mode, None)) => space_with_mode(space.expression, mode),
        _ => Err("template is empty"),
    }
}

/// An address space, and an access mode if there is one.
fn space_with_mode(
    space: ExpressionNode,
    mode: Option<TemplateArg>,
) -> Result<(AddressSpace, Option<AccessMode>), &'static str>
    ensures { MatchResult result (λ pair. space_with_mode
        (untemplated_word address_spaces (expression_node_view space)) (option_map template_arg_view mode)
        ≡ right (var_template_view pair)) (λ text. space_with_mode (untemplated_word address_spaces
        (expression_node_view space)) (option_map template_arg_view mode) ≡ wrong text.now) }
{
    let space = word_address_space(space).ok_or("invalid address space")?;
    match mode {
        None => Ok((space, None)),
        Some(mode) => Ok((space, Some(mode_in_space(space, mode.expression)?))),
    }
}

/// The access mode of a variable in an address space.
fn mode_in_space(space: AddressSpace, mode: ExpressionNode) -> Result<AccessMode, &'static str>
    ensures { MatchResult result
        (λ known. space_and_mode (Some (address_space_view space)) (expression_node_view mode)
        ≡ right (address_space_view space, Some (access_mode_view known))) (λ text. space_and_mode
        (Some (address_space_view space)) (expression_node_view mode) ≡ wrong text.now) }
{
    match space {
        AddressSpace::Storage => word_access_mode(mode).ok_or("invalid access mode"),
        _ => Err("only variables with `storage` address space can have an access mode"),
    }
}

/// Reads a name, and its type if there is one.
pub fn parse_typed_ident(
    alloc: Global,
    tokens: &mut Cursor,
) -> Result<(Ident, Option<TypeExpression>), Fault>
    ensures { Parses (λ typed.
        (ident_name typed.0, option_map type_expression_view typed.1)) result tokens.old tokens.new
        (reader (of typed_ident)) }
{
    let ident = parse_ident(tokens)?;
    if !tokens.eat(TokenKind::SymColon) {
        return Ok((ident, None));
    }
    Ok((ident, Some(parse_type_specifier(alloc, tokens)?)))
}
