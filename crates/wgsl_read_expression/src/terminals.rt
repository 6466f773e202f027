//! Names and literals, which are one token each.
#![tactic(auto, unfolding(grammar::specs::States::is_at), using(crate::proofs::Literals::lemmas))]

ghost use Rattle.std.specs.Prelude.{◌≡◌, ◌<◌, length, IfOk, OnOk};
ghost use Rattle.grammar.specs.States.{first_of};
ghost use Rattle.wgsl_model.specs.Grammar.TokenValues.{text_of};
ghost use Rattle.wgsl_model.specs.Grammar.Symbols.{Symbol.ident, Symbol.literal};
ghost use Rattle.wgsl_theory_grammar.specs.Factored.{FactoredSymbol.of};
ghost use Rattle.wgsl_theory_grammar.specs.Reader.{reader};
ghost use Rattle.wgsl_tree_expression.specs.View.{ident_name, literal_view};
ghost use Rattle.wgsl_read_cursor.specs.Reading.{state, Gives, Parses};

use std::alloc::Global;
use wgsl_lex_token::placed::PlacedToken;
use wgsl_lex_token::token::Token;
use wgsl_read_cursor::{Cursor, Expected, Fault};
use wgsl_tree_expression::{Ident, LiteralExpression};

/// Reads a name.
pub fn parse_ident(tokens: &mut Cursor) -> Result<Ident, Fault>
    ensures value { Gives (λ _. first_of (state tokens.old)) result
        (state tokens.new) (reader (of ident) (state tokens.old)) }
    ensures name { IfOk result (λ name. ident_name name ≡ text_of (first_of (state tokens.old))) }
    ensures shorter { OnOk result
        (length (state tokens.new).rest < length (state tokens.old).rest) }
{
    Ok(Ident::new(tokens.name()?))
}

/// Reads a literal. `expected` is what could be in its place.
pub fn parse_literal(
    alloc: Global,
    tokens: &mut Cursor,
    expected: Expected,
) -> Result<LiteralExpression, Fault>
    ensures { Parses literal_view result tokens.old tokens.new (reader (of literal)) }
{
    let PlacedToken { token, span } = tokens.next(expected)?;
    match token {
        Token::KwTrue => Ok(LiteralExpression::Bool(true)),
        Token::KwFalse => Ok(LiteralExpression::Bool(false)),
        Token::AbstractInt(number) => Ok(LiteralExpression::AbstractInt(number)),
        Token::I32(number) => Ok(LiteralExpression::I32(number)),
        Token::U32(number) => Ok(LiteralExpression::U32(number)),
        Token::AbstractFloat(text) => Ok(LiteralExpression::AbstractFloat(text)),
        Token::F32(text) => Ok(LiteralExpression::F32(text)),
        Token::F16(text) => Ok(LiteralExpression::F16(text)),
        token => Err(Fault::unexpected_token(alloc, PlacedToken { token, span }, expected)),
    }
}
