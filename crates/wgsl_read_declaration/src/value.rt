//! Reading the declarations of values, and further names for types.
#![tactic(auto, unfolding(crate::proofs::Hints::definitions), using(crate::proofs::Hints::lemmas))]

ghost use Rattle.wgsl_model.specs.Trees.Attributed.{with_attributes};
ghost use Rattle.wgsl_tree_attribute.specs.View.{attributes_view};
ghost use Rattle.wgsl_tree_unit.specs.View.{global_declaration_view};
ghost use Rattle.wgsl_theory_grammar.specs.Factored.{FactoredSymbol.further, Further.var_part, Further.override_part, Further.const_part, Further.alias_part};
ghost use Rattle.wgsl_theory_grammar.specs.Reader.{reader};
ghost use Rattle.wgsl_read_cursor.specs.Reading.{Parses};
ghost use Rattle.wgsl_read_attribute.specs.After.{after_attributes};

use std::alloc::Global;
use wgsl_lex_token::kind::TokenKind;
use wgsl_read_cursor::{Cursor, Fault};
use wgsl_read_expression::{parse_expression, parse_ident, parse_type_specifier};
use wgsl_read_simple::{parse_maybe_initializer, parse_typed_ident, parse_var_kind};
use wgsl_tree_attribute::Attributes;
use wgsl_tree_simple::{Declaration, DeclarationKind};
use wgsl_tree_unit::{GlobalDeclaration, TypeAlias};

/// Reads a `var` after its attributes.
pub fn parse_var_part(
    alloc: Global,
    tokens: &mut Cursor,
    attributes: Attributes,
) -> Result<GlobalDeclaration, Fault>
    ensures { Parses global_declaration_view result tokens.old tokens.new
        (after_attributes with_attributes
        (attributes_view attributes.items) (reader (further var_part))) }
{
    let kind = parse_var_kind(alloc, tokens)?;
    let (ident, ty) = parse_typed_ident(alloc, tokens)?;
    let initializer = parse_maybe_initializer(alloc, tokens)?;
    tokens.expect(TokenKind::SymSemicolon)?;
    Ok(GlobalDeclaration::Declaration(Declaration {
        attributes,
        kind,
        ident,
        ty,
        initializer,
    }))
}

/// Reads an `override` after its attributes.
pub fn parse_override_part(
    alloc: Global,
    tokens: &mut Cursor,
    attributes: Attributes,
) -> Result<GlobalDeclaration, Fault>
    ensures { Parses global_declaration_view result tokens.old tokens.new
        (after_attributes with_attributes
        (attributes_view attributes.items) (reader (further override_part))) }
{
    tokens.expect(TokenKind::KwOverride)?;
    let (ident, ty) = parse_typed_ident(alloc, tokens)?;
    let initializer = parse_maybe_initializer(alloc, tokens)?;
    tokens.expect(TokenKind::SymSemicolon)?;
    Ok(GlobalDeclaration::Declaration(Declaration {
        attributes,
        kind: DeclarationKind::Override,
        ident,
        ty,
        initializer,
    }))
}

/// Reads a `const` after its attributes.
pub fn parse_const_part(
    alloc: Global,
    tokens: &mut Cursor,
    attributes: Attributes,
) -> Result<GlobalDeclaration, Fault>
    ensures { Parses global_declaration_view result tokens.old tokens.new
        (after_attributes with_attributes
        (attributes_view attributes.items) (reader (further const_part))) }
{
    tokens.expect(TokenKind::KwConst)?;
    let (ident, ty) = parse_typed_ident(alloc, tokens)?;
    tokens.expect(TokenKind::SymEqual)?;
    let initializer = parse_expression(alloc, tokens)?;
    tokens.expect(TokenKind::SymSemicolon)?;
    Ok(GlobalDeclaration::Declaration(Declaration {
        attributes,
        kind: DeclarationKind::Const,
        ident,
        ty,
        initializer: Some(initializer),
    }))
}

/// Reads an `alias` after its attributes.
pub fn parse_alias_part(
    alloc: Global,
    tokens: &mut Cursor,
    attributes: Attributes,
) -> Result<GlobalDeclaration, Fault>
    ensures { Parses global_declaration_view result tokens.old tokens.new
        (after_attributes with_attributes
        (attributes_view attributes.items) (reader (further alias_part))) }
{
    tokens.expect(TokenKind::KwAlias)?;
    let ident = parse_ident(tokens)?;
    tokens.expect(TokenKind::SymEqual)?;
    let ty = parse_type_specifier(alloc, tokens)?;
    tokens.expect(TokenKind::SymSemicolon)?;
    Ok(GlobalDeclaration::TypeAlias(TypeAlias {
        attributes,
        ident,
        ty,
    }))
}
