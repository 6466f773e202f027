//! What is before the block of a clause of `switch`.
#![tactic(auto, unfolding(crate::proofs::Hints::definitions), using(crate::proofs::Hints::lemmas))]

ghost use Rattle.std.specs.Prelude.{◌≡◌, ◌≤◌, Some, None, cond, length, map};
ghost use Rattle.grammar.specs.States.{Read.done, is_at, is_any, first_of};
ghost use Rattle.wgsl_model.specs.Tokens.ClassTable as class;
ghost use Rattle.wgsl_model.specs.Grammar.Symbols.{Symbol.case_selector};
ghost use Rattle.wgsl_tree_simple.specs.View.{selector_view};
ghost use Rattle.wgsl_theory_grammar.specs.Factored.{FactoredSymbol.of, FactoredSymbol.further, Further.selectors};
ghost use Rattle.wgsl_theory_grammar.specs.Tables.{begin_case_selector};
ghost use Rattle.wgsl_theory_grammar.specs.Reader.{reader};
ghost use Rattle.wgsl_read_cursor.specs.Reading.{state, Parses};
ghost use Rattle.wgsl_read_part.specs.Clauses.{maybe_colon_at, clause_head_at};

use std::alloc::Global;
use wgsl_lex_token::kind::TokenKind;
use wgsl_read_cursor::{Cursor, Expected, Fault};
use wgsl_read_expression::parse_expression;
use wgsl_tree_simple::CaseSelector;

/// What begins a clause.
const SWITCH_CLAUSE: Expected = Expected::OneOf(&[
    TokenKind::SymAttr,
    TokenKind::KwCase,
    TokenKind::KwDefault,
]);

/// Reads `case` with its selectors, or `default`, and a `:` if there is one.
pub fn parse_clause_head(alloc: Global, tokens: &mut Cursor) -> Result<Vec<CaseSelector>, Fault>
    ensures { Parses (λ selectors.
        map selector_view selectors.items) result tokens.old tokens.new clause_head_at }
{
    if tokens.eat(TokenKind::KwCase) {
        let selectors = parse_selectors(alloc, tokens)?;
        skip_colon(tokens);
        return Ok(selectors);
    }
    if tokens.eat(TokenKind::KwDefault) {
        skip_colon(tokens);
        return Ok(vec![in alloc; CaseSelector::Default]?);
    }
    Err(tokens.refuse(SWITCH_CLAUSE))
}

/// Takes a `:` if there is one.
fn skip_colon(tokens: &mut Cursor)
    ensures value { maybe_colon_at (state tokens.old) ≡ done (cond (is_at class.SymColon
        (state tokens.old)) (Some (first_of (state tokens.old))) None) (state tokens.new) }
    ensures shorter { length (state tokens.new).rest ≤ length (state tokens.old).rest }
{
    tokens.eat(TokenKind::SymColon);
}

/// Selectors with commas between, also after the last.
fn parse_selectors(alloc: Global, tokens: &mut Cursor) -> Result<Vec<CaseSelector>, Fault>
    ensures { Parses (λ selectors. map selector_view selectors.items) result tokens.old tokens.new
        (reader (further selectors)) }
{
    let mut selectors = Vec::new(alloc);
    selectors.push(parse_case_selector(alloc, tokens)?)?;
    'selectors: while tokens.eat(TokenKind::SymComma) {
        if !begins_case_selector(tokens) {
            break;
        }
        selectors.push(parse_case_selector(alloc, tokens)?)?;
    }
    Ok(selectors)
}

/// `default`, or an expression.
fn parse_case_selector(alloc: Global, tokens: &mut Cursor) -> Result<CaseSelector, Fault>
    ensures { Parses selector_view result tokens.old tokens.new (reader (of case_selector)) }
{
    if tokens.eat(TokenKind::KwDefault) {
        return Ok(CaseSelector::Default);
    }
    Ok(CaseSelector::Expression(parse_expression(alloc, tokens)?))
}

/// Whether the next token begins a selector.
fn begins_case_selector(tokens: &Cursor) -> bool
    ensures { result ≡ is_any begin_case_selector (state tokens.now) }
{
    tokens.is_at(TokenKind::SymAnd)
        || tokens.is_at(TokenKind::SymBang)
        || tokens.is_at(TokenKind::SymMinus)
        || tokens.is_at(TokenKind::SymParenLeft)
        || tokens.is_at(TokenKind::SymStar)
        || tokens.is_at(TokenKind::SymTilde)
        || tokens.is_at(TokenKind::KwDefault)
        || tokens.is_at(TokenKind::KwFalse)
        || tokens.is_at(TokenKind::KwTrue)
        || tokens.is_at(TokenKind::Ident)
        || tokens.is_at(TokenKind::ReservedWord)
        || tokens.is_at(TokenKind::AbstractInt)
        || tokens.is_at(TokenKind::I32)
        || tokens.is_at(TokenKind::U32)
        || tokens.is_at(TokenKind::AbstractFloat)
        || tokens.is_at(TokenKind::F32)
        || tokens.is_at(TokenKind::F16)
}
