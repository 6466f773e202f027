//! `switch` with its clauses.
#![tactic(auto, unfolding(crate::proofs::Hints::definitions), using(crate::proofs::Hints::lemmas))]

ghost use Rattle.std.specs.Prelude.{map};
ghost use Rattle.wgsl_model.specs.Trees.Statements.{statement};
ghost use Rattle.wgsl_model.specs.Grammar.Symbols.{Symbol.switch_clause};
ghost use Rattle.wgsl_tree_attribute.specs.View.{attributes_view};
ghost use Rattle.wgsl_tree_statement.specs.View.{statement_view, switch_clause_view};
ghost use Rattle.wgsl_theory_grammar.specs.Factored.{FactoredSymbol.of, FactoredSymbol.further, Further.switch_part};
ghost use Rattle.wgsl_theory_grammar.specs.Reader.{reader};
ghost use Rattle.wgsl_read_cursor.specs.Reading.{Parses};
ghost use Rattle.wgsl_read_attribute.specs.After.{after_attributes};
ghost use Rattle.wgsl_read_statement.specs.Switches.{clauses_at};

use crate::block::parse_compound_statement;
use std::alloc::Global;
use wgsl_lex_token::kind::TokenKind;
use wgsl_read_attribute::parse_attributes;
use wgsl_read_cursor::{Cursor, Fault};
use wgsl_read_part::{parse_clause_head, parse_switch_head};
use wgsl_tree_attribute::Attributes;
use wgsl_tree_statement::{Statement, SwitchClause, SwitchStatement};

/// Reads a `switch`, after its attributes.
#[tactic(auto, using(crate::proofs::Switches::switches))]
#[inline(never)]
#[cycle(statement)]
pub fn parse_switch_part(
    alloc: Global,
    tokens: &mut Cursor,
    attributes: Attributes,
) -> Result<Statement, Fault>
    ensures { Parses statement_view result tokens.old tokens.new (after_attributes statement
        (attributes_view attributes.items) (reader (further switch_part))) }
{
    let (expression, body_attributes) = parse_switch_head(alloc, tokens)?;
    let clauses = parse_clauses(alloc, tokens)?;
    Ok(Statement::Switch(SwitchStatement {
        attributes,
        expression,
        body_attributes,
        clauses,
    }))
}

/// The clauses, one at least, up to the `}` after them.
#[cycle(statement)]
fn parse_clauses(alloc: Global, tokens: &mut Cursor) -> Result<Vec<SwitchClause>, Fault>
    ensures { Parses
        (λ clauses. map switch_clause_view clauses.items) result tokens.old tokens.new clauses_at }
{
    let mut clauses = Vec::new(alloc);
    let first = parse_switch_clause(alloc, tokens)?;
    clauses.push(first)?;
    'clauses: while !tokens.eat(TokenKind::SymBraceRight) {
        clauses.push(parse_switch_clause(alloc, tokens)?)?;
    }
    Ok(clauses)
}

/// A clause: its attributes, `case` with its selectors, or `default`, and a block.
#[tactic(auto, using(crate::proofs::Switches::switch_clauses))]
#[cycle(statement)]
fn parse_switch_clause(alloc: Global, tokens: &mut Cursor) -> Result<SwitchClause, Fault>
    ensures { Parses switch_clause_view result tokens.old tokens.new (reader (of switch_clause)) }
{
    let attributes = parse_attributes(alloc, tokens)?;
    let case_selectors = parse_clause_head(alloc, tokens)?;
    let body = parse_compound_statement(alloc, tokens)?;
    Ok(SwitchClause {
        attributes,
        case_selectors,
        body,
    })
}
