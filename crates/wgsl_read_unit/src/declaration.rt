//! Reading the declarations of a module.
#![tactic(auto, unfolding(crate::proofs::Hints::definitions), using(crate::proofs::Hints::lemmas))]

ghost use Rattle.std.specs.Prelude.{◌≡◌};
ghost use Rattle.grammar.specs.States.{is_any};
ghost use Rattle.wgsl_model.specs.Trees.Attributed.{with_attributes};
ghost use Rattle.wgsl_model.specs.Grammar.Symbols.{Symbol.global_declaration};
ghost use Rattle.wgsl_span.specs.View.{spanned_view};
ghost use Rattle.wgsl_tree_attribute.specs.View.{attributes_view};
ghost use Rattle.wgsl_tree_unit.specs.View.{global_declaration_view};
ghost use Rattle.wgsl_theory_grammar.specs.Factored.{FactoredSymbol.of, FactoredSymbol.further, Further.attributed_part, Further.led_part};
ghost use Rattle.wgsl_theory_grammar.specs.Reader.{reader};
ghost use Rattle.wgsl_read_cursor.specs.Reading.{state, Parses};
ghost use Rattle.wgsl_read_attribute.specs.After.{after_attributes};
ghost use Rattle.wgsl_read_unit.specs.Parts.{begin_attributed_part, declaration_part_at, declaration_after_at, assert_declaration_at};

use crate::function::parse_function_part;
use std::alloc::Global;
use wgsl_lex_token::kind::TokenKind;
use wgsl_read_attribute::parse_attributes;
use wgsl_read_cursor::{Cursor, Expected, Fault};
use wgsl_read_declaration::{
    parse_alias_part, parse_const_part, parse_override_part, parse_struct_part, parse_var_part,
};
use wgsl_read_simple::parse_assert_part;
use wgsl_span::Spanned;
use wgsl_tree_attribute::Attributes;
use wgsl_tree_simple::ConstAssert;
use wgsl_tree_unit::{GlobalDeclaration, GlobalDeclarationNode};

/// What can be after the attributes of a declaration.
const ATTRIBUTED_DECLARATION: Expected = Expected::OneOf(&[
    TokenKind::SymAttr,
    TokenKind::KwAlias,
    TokenKind::KwConst,
    TokenKind::KwConstAssert,
    TokenKind::KwFn,
    TokenKind::KwOverride,
    TokenKind::KwStruct,
    TokenKind::KwVar,
]);

/// Reads a declaration with its `;`, if it has one, and where it is, its attributes included (WGSL,
/// "WGSL Module"). An empty one has no attributes.
pub fn parse_global_declaration(
    alloc: Global,
    tokens: &mut Cursor,
) -> Result<GlobalDeclarationNode, Fault>
    ensures { Parses (spanned_view global_declaration_view) result tokens.old tokens.new
        (reader (of global_declaration)) }
{
    let start = tokens.start();
    if tokens.eat(TokenKind::SymSemicolon) {
        return Ok(Spanned::new(alloc, GlobalDeclaration::Void, tokens.span_from(start))?);
    }
    let attributes = parse_attributes(alloc, tokens)?;
    parse_declaration_after(alloc, tokens, attributes, start)
}

/// Reads a declaration after its attributes, and its place, which begins where they do.
pub fn parse_declaration_after(
    alloc: Global,
    tokens: &mut Cursor,
    attributes: Attributes,
    start: usize,
) -> Result<GlobalDeclarationNode, Fault>
    ensures { Parses (spanned_view global_declaration_view) result tokens.old tokens.new
        (declaration_after_at (attributes_view attributes.items) start) }
{
    let declaration = parse_declaration_part(alloc, tokens, attributes)?;
    Ok(Spanned::new(alloc, declaration, tokens.span_from(start))?)
}

/// A declaration from its first word on, after its attributes.
fn parse_declaration_part(
    alloc: Global,
    tokens: &mut Cursor,
    attributes: Attributes,
) -> Result<GlobalDeclaration, Fault>
    ensures { Parses global_declaration_view result tokens.old tokens.new
        (after_attributes with_attributes (attributes_view attributes.items) declaration_part_at) }
{
    if begins_attributed_part(tokens) {
        return parse_attributed_part(alloc, tokens, attributes);
    }
    parse_led_part(alloc, tokens, attributes)
}

/// Whether the next token begins a function, an `override` or a `var`.
fn begins_attributed_part(tokens: &Cursor) -> bool
    ensures { result ≡ is_any begin_attributed_part (state tokens.now) }
{
    tokens.is_at(TokenKind::KwFn)
        || tokens.is_at(TokenKind::KwOverride)
        || tokens.is_at(TokenKind::KwVar)
}

/// A `var`, an `override` or a function, after its attributes.
fn parse_attributed_part(
    alloc: Global,
    tokens: &mut Cursor,
    attributes: Attributes,
) -> Result<GlobalDeclaration, Fault>
    ensures { Parses global_declaration_view result tokens.old tokens.new
        (after_attributes with_attributes
        (attributes_view attributes.items) (reader (further attributed_part))) }
{
    if tokens.is_at(TokenKind::KwVar) {
        return parse_var_part(alloc, tokens, attributes);
    }
    if tokens.is_at(TokenKind::KwOverride) {
        return parse_override_part(alloc, tokens, attributes);
    }
    parse_function_part(alloc, tokens, attributes)
}

/// Another declaration that is not empty, after its attributes.
fn parse_led_part(
    alloc: Global,
    tokens: &mut Cursor,
    attributes: Attributes,
) -> Result<GlobalDeclaration, Fault>
    ensures { Parses global_declaration_view result tokens.old tokens.new
        (after_attributes with_attributes
        (attributes_view attributes.items) (reader (further led_part))) }
{
    if tokens.is_at(TokenKind::KwConst) {
        return parse_const_part(alloc, tokens, attributes);
    }
    if tokens.is_at(TokenKind::KwAlias) {
        return parse_alias_part(alloc, tokens, attributes);
    }
    if tokens.is_at(TokenKind::KwStruct) {
        return parse_struct_part(alloc, tokens, attributes);
    }
    if tokens.is_at(TokenKind::KwConstAssert) {
        return parse_assert_declaration(alloc, tokens, attributes);
    }
    Err(tokens.refuse(expected_after(&attributes)))
}

/// What could be in the place of a token that begins no declaration, after attributes.
fn expected_after(attributes: &Attributes) -> Expected {
    if attributes.is_empty() {
        Expected::DECLARATION
    } else {
        ATTRIBUTED_DECLARATION
    }
}

/// A `const_assert` after its attributes.
fn parse_assert_declaration(
    alloc: Global,
    tokens: &mut Cursor,
    attributes: Attributes,
) -> Result<GlobalDeclaration, Fault>
    ensures { Parses global_declaration_view result tokens.old tokens.new
        (after_attributes with_attributes
        (attributes_view attributes.items) assert_declaration_at) }
{
    let expression = parse_assert_part(alloc, tokens)?;
    tokens.expect(TokenKind::SymSemicolon)?;
    Ok(GlobalDeclaration::ConstAssert(ConstAssert {
        attributes,
        expression,
    }))
}
