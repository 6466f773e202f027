//! Reading structures.
#![tactic(auto, unfolding(crate::proofs::Hints::definitions), using(crate::proofs::Hints::lemmas))]

ghost use Rattle.std.specs.Prelude.{map};
ghost use Rattle.wgsl_model.specs.Trees.Attributed.{with_attributes};
ghost use Rattle.wgsl_model.specs.Grammar.Symbols.{Symbol.struct_member};
ghost use Rattle.wgsl_span.specs.View.{spanned_view};
ghost use Rattle.wgsl_tree_attribute.specs.View.{attributes_view};
ghost use Rattle.wgsl_tree_unit.specs.View.{global_declaration_view, member_view};
ghost use Rattle.wgsl_theory_grammar.specs.Factored.{FactoredSymbol.of, FactoredSymbol.further, Further.struct_part, Further.member_items};
ghost use Rattle.wgsl_theory_grammar.specs.Reader.{reader};
ghost use Rattle.wgsl_read_cursor.specs.Reading.{Parses};
ghost use Rattle.wgsl_read_attribute.specs.After.{after_attributes};

use std::alloc::Global;
use wgsl_lex_token::kind::TokenKind;
use wgsl_read_attribute::parse_attributes;
use wgsl_read_cursor::{Cursor, Fault};
use wgsl_read_expression::{parse_ident, parse_type_specifier};
use wgsl_span::Spanned;
use wgsl_tree_attribute::Attributes;
use wgsl_tree_unit::{GlobalDeclaration, Struct, StructMember, StructMemberNode};

/// Reads a `struct` after its attributes.
pub fn parse_struct_part(
    alloc: Global,
    tokens: &mut Cursor,
    attributes: Attributes,
) -> Result<GlobalDeclaration, Fault>
    ensures { Parses global_declaration_view result tokens.old tokens.new
        (after_attributes with_attributes
        (attributes_view attributes.items) (reader (further struct_part))) }
{
    tokens.expect(TokenKind::KwStruct)?;
    let ident = parse_ident(tokens)?;
    tokens.expect(TokenKind::SymBraceLeft)?;
    let members = parse_members(alloc, tokens)?;
    Ok(GlobalDeclaration::Struct(Struct {
        attributes,
        ident,
        members,
    }))
}

/// Members, one at least, with a comma after each, or after each but the last, and the `}` after
/// them.
fn parse_members(alloc: Global, tokens: &mut Cursor) -> Result<Vec<StructMemberNode>, Fault>
    ensures { Parses (λ v. map (spanned_view member_view) v.items) result tokens.old tokens.new
        (reader (further member_items)) }
{
    let mut members = Vec::new(alloc);
    members.push(parse_struct_member(alloc, tokens)?)?;
    'members: while tokens.eat(TokenKind::SymComma) {
        if tokens.eat(TokenKind::SymBraceRight) {
            return Ok(members);
        }
        members.push(parse_struct_member(alloc, tokens)?)?;
    }
    tokens.expect(TokenKind::SymBraceRight)?;
    Ok(members)
}

fn parse_struct_member(alloc: Global, tokens: &mut Cursor) -> Result<StructMemberNode, Fault>
    ensures { Parses
        (spanned_view member_view) result tokens.old tokens.new (reader (of struct_member)) }
{
    let start = tokens.start();
    let attributes = parse_attributes(alloc, tokens)?;
    let ident = parse_ident(tokens)?;
    tokens.expect(TokenKind::SymColon)?;
    let ty = parse_type_specifier(alloc, tokens)?;
    let member = StructMember {
        attributes,
        ident,
        ty,
    };
    Ok(Spanned::new(alloc, member, tokens.span_from(start))?)
}
