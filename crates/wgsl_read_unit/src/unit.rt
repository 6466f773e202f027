//! Reading modules.
#![tactic(auto, unfolding(crate::proofs::Hints::definitions), using(crate::proofs::Hints::lemmas))]

ghost use Rattle.std.specs.Prelude.{◌≡◌, map};
ghost use Rattle.grammar.specs.States.{is_any};
ghost use Rattle.wgsl_model.specs.Grammar.Symbols.{Symbol.unit};
ghost use Rattle.wgsl_span.specs.View.{spanned_view};
ghost use Rattle.wgsl_tree_unit.specs.View.{global_directive_view, global_declaration_view, unit_view};
ghost use Rattle.wgsl_theory_grammar.specs.Factored.{FactoredSymbol.of, FactoredSymbol.further, Further.front};
ghost use Rattle.wgsl_theory_grammar.specs.Tables.{begin_global_declaration};
ghost use Rattle.wgsl_theory_grammar.specs.Reader.{reader};
ghost use Rattle.wgsl_read_cursor.specs.Reading.{state, ParsesNullable};
ghost use Rattle.wgsl_read_unit.specs.Parts.{begin_attributed, begin_directive_part, further_declarations_at};

use crate::declaration::{parse_declaration_after, parse_global_declaration};
use std::alloc::Global;
use wgsl_lex_token::kind::TokenKind;
use wgsl_read_attribute::parse_attributes;
use wgsl_read_cursor::{Cursor, Fault};
use wgsl_read_declaration::parse_directive_part;
use wgsl_tree_unit::{GlobalDeclarationNode, GlobalDirective, TranslationUnit};

/// Reads a module: its directives, then its declarations. Whatever begins neither is left (WGSL,
/// "WGSL Module").
pub fn parse_translation_unit(alloc: Global, tokens: &mut Cursor) -> Result<TranslationUnit, Fault>
    ensures { ParsesNullable unit_view result tokens.old tokens.new (reader (of unit)) }
{
    let (global_directives, global_declarations) = parse_front(alloc, tokens)?;
    Ok(TranslationUnit {
        global_directives,
        global_declarations,
    })
}

/// The directives of a module and its declarations. Attributes are before either.
fn parse_front(
    alloc: Global,
    tokens: &mut Cursor,
) -> Result<(Vec<GlobalDirective>, Vec<GlobalDeclarationNode>), Fault>
    ensures { ParsesNullable (λ front. (
      map global_directive_view front.0.items,
      map
          (spanned_view global_declaration_view) front.1.items,
    )) result tokens.old tokens.new
        (reader (further front)) }
{
    let mut directives = Vec::new(alloc);
    'directives: while begins_attributed(tokens) {
        let start = tokens.start();
        let attributes = parse_attributes(alloc, tokens)?;
        if !begins_directive_part(tokens) {
            let first = parse_declaration_after(alloc, tokens, attributes, start)?;
            let declarations = parse_further_declarations(alloc, tokens, vec![in alloc; first]?)?;
            return Ok((directives, declarations));
        }
        directives.push(parse_directive_part(alloc, tokens, attributes)?)?;
    }
    let declarations = parse_further_declarations(alloc, tokens, Vec::new(alloc))?;
    Ok((directives, declarations))
}

/// Whether the next token begins attributes, or a directive or a declaration that may have some.
fn begins_attributed(tokens: &Cursor) -> bool
    ensures { result ≡ is_any begin_attributed (state tokens.now) }
{
    tokens.is_at(TokenKind::SymAttr)
        || tokens.is_at(TokenKind::KwDiagnostic)
        || tokens.is_at(TokenKind::KwEnable)
        || tokens.is_at(TokenKind::KwRequires)
        || tokens.is_at(TokenKind::KwFn)
        || tokens.is_at(TokenKind::KwOverride)
        || tokens.is_at(TokenKind::KwVar)
        || tokens.is_at(TokenKind::KwAlias)
        || tokens.is_at(TokenKind::KwConst)
        || tokens.is_at(TokenKind::KwConstAssert)
        || tokens.is_at(TokenKind::KwStruct)
}

/// Whether the next token begins a directive, after its attributes.
fn begins_directive_part(tokens: &Cursor) -> bool
    ensures { result ≡ is_any begin_directive_part (state tokens.now) }
{
    tokens.is_at(TokenKind::KwDiagnostic)
        || tokens.is_at(TokenKind::KwEnable)
        || tokens.is_at(TokenKind::KwRequires)
}

/// Further declarations after some.
fn parse_further_declarations(
    alloc: Global,
    tokens: &mut Cursor,
    some: Vec<GlobalDeclarationNode>,
) -> Result<Vec<GlobalDeclarationNode>, Fault>
    ensures { ParsesNullable
        (λ v. map (spanned_view global_declaration_view) v.items) result tokens.old tokens.new
        (further_declarations_at (map (spanned_view global_declaration_view) some.items)) }
{
    let mut declarations = some;
    'declarations: while begins_declaration(tokens) {
        declarations.push(parse_global_declaration(alloc, tokens)?)?;
    }
    Ok(declarations)
}

/// Whether the next token begins a declaration.
fn begins_declaration(tokens: &Cursor) -> bool
    ensures { result ≡ is_any begin_global_declaration (state tokens.now) }
{
    tokens.is_at(TokenKind::SymAttr)
        || tokens.is_at(TokenKind::SymSemicolon)
        || tokens.is_at(TokenKind::KwAlias)
        || tokens.is_at(TokenKind::KwConst)
        || tokens.is_at(TokenKind::KwConstAssert)
        || tokens.is_at(TokenKind::KwFn)
        || tokens.is_at(TokenKind::KwOverride)
        || tokens.is_at(TokenKind::KwStruct)
        || tokens.is_at(TokenKind::KwVar)
}
