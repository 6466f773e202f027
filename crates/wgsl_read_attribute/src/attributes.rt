//! Attributes (WGSL, "Attributes").
#![tactic(auto, unfolding(crate::proofs::Hints::definitions), using(crate::proofs::Hints::lemmas))]

ghost use Rattle.std.specs.Prelude.{◌≡◌, ◌<◌, length, IfOk, OnOk, option_map};
ghost use Rattle.grammar.specs.States.{first_of, after};
ghost use Rattle.wgsl_model.specs.Grammar.TokenValues.{text_of};
ghost use Rattle.wgsl_model.specs.Faults.Kinds.{invalid_attribute};
ghost use Rattle.wgsl_theory_grammar.specs.Reader.{reader};
ghost use Rattle.wgsl_theory_grammar.specs.Factored.{FactoredSymbol.further, Further.attribute_list};
ghost use Rattle.wgsl_span.specs.View.{span_view, spanned_view};
ghost use Rattle.wgsl_tree_attribute.specs.View.{attribute_view, attributes_view, expressions_view};
ghost use Rattle.wgsl_read_cursor.specs.Reading.{state, Gives, Parses, ParsesNullable};
ghost use Rattle.wgsl_read_cursor.specs.Words.{word_text};
ghost use Rattle.wgsl_read_attribute.specs.Known.{checked_attribute};
ghost use Rattle.wgsl_read_attribute.specs.Settles.{Settles};
ghost use Rattle.wgsl_read_attribute.specs.Rules.{attribute_node_at, attribute_parts_at, optional_arguments_at};

use crate::arguments::Refusal;
use crate::attribute_nodes::make_attribute;
use std::alloc::Global;
use wgsl_error::{Error, ErrorKind};
use wgsl_lex_token::kind::TokenKind;
use wgsl_read_cursor::{Cursor, Fault, Word, add};
use wgsl_read_expression::parse_arguments;
use wgsl_span::{Span, Spanned};
use wgsl_tree_attribute::{Attribute, AttributeNode, Attributes};
use wgsl_tree_expression::ExpressionNode;

/// Reads attributes, none too.
pub fn parse_attributes(alloc: Global, tokens: &mut Cursor) -> Result<Attributes, Fault>
    ensures { ParsesNullable
        (λ attributes. attributes_view attributes.items) result tokens.old tokens.new
        (reader (further attribute_list)) }
{
    let mut attributes = Vec::new(alloc);
    'attributes: while tokens.is_at(TokenKind::SymAttr) {
        add(&mut attributes, parse_attribute(alloc, tokens)?)?;
    }
    Ok(attributes)
}

#[inline(never)]
fn parse_attribute(alloc: Global, tokens: &mut Cursor) -> Result<AttributeNode, Fault>
    ensures { Parses (spanned_view attribute_view) result tokens.old tokens.new attribute_node_at }
{
    let start = tokens.start();
    let (name, arguments) = parse_parts(alloc, tokens)?;
    let span = tokens.span_from(start);
    let attribute = checked_attribute(alloc, name, arguments, span)?;
    Ok(Spanned::new(alloc, attribute, span)?)
}

/// The name of an attribute and its arguments, before they are checked.
fn parse_parts(
    alloc: Global,
    tokens: &mut Cursor,
) -> Result<(Word, Option<Vec<ExpressionNode>>), Fault>
    ensures value { Gives
        (λ parts. (first_of (after (state tokens.old)), option_map expressions_view parts.1)) result
        (state tokens.new) (attribute_parts_at (state tokens.old)) }
    ensures name { IfOk result (λ parts.
        word_text parts.0 ≡ text_of (first_of (after (state tokens.old)))) }
    ensures shorter { OnOk result
        (length (state tokens.new).rest < length (state tokens.old).rest) }
{
    tokens.expect(TokenKind::SymAttr)?;
    let name = tokens.attribute_name()?;
    Ok((name, parse_optional_arguments(alloc, tokens)?))
}

/// Arguments in parentheses, if the next token is a parenthesis.
fn parse_optional_arguments(
    alloc: Global,
    tokens: &mut Cursor,
) -> Result<Option<Vec<ExpressionNode>>, Fault>
    ensures { ParsesNullable
        (option_map expressions_view) result tokens.old tokens.new optional_arguments_at }
{
    if !tokens.is_at(TokenKind::SymParenLeft) {
        return Ok(None);
    }
    Ok(Some(parse_arguments(alloc, tokens)?))
}

/// The attribute that a name makes of its arguments, or the fault of one that makes none.
fn checked_attribute(
    alloc: Global,
    name: Word,
    arguments: Option<Vec<ExpressionNode>>,
    span: Span,
) -> Result<Attribute, Fault>
    ensures { Settles attribute_view result
        (checked_attribute (word_text name) (option_map expressions_view arguments)) (λ text.
        invalid_attribute (word_text name) text (span_view span)) }
{
    match make_attribute(alloc, name, arguments) {
        Ok(attribute) => Ok(attribute),
        Err(Refusal::OutOfMemory) => Err(Fault::OutOfMemory),
        Err(Refusal::Arguments(name, text)) => Err(Fault::checked(
            alloc,
            Error {
                error: ErrorKind::Attribute(name, text),
                span,
            },
        )),
    }
}
