//! `if` and its `else` parts.
#![tactic(auto, unfolding(crate::proofs::Hints::definitions), using(crate::proofs::Hints::lemmas))]

ghost use Rattle.std.specs.Prelude.{map, option_map};
ghost use Rattle.wgsl_model.specs.Trees.Statements.{statement};
ghost use Rattle.wgsl_tree_attribute.specs.View.{attributes_view};
ghost use Rattle.wgsl_tree_statement.specs.View.{statement_view, else_if_clause_view, else_clause_view};
ghost use Rattle.wgsl_theory_grammar.specs.Factored.{FactoredSymbol.further, Further.if_part, Further.else_rest};
ghost use Rattle.wgsl_theory_grammar.specs.Reader.{reader};
ghost use Rattle.wgsl_read_cursor.specs.Reading.{Parses, ParsesNullable};
ghost use Rattle.wgsl_read_attribute.specs.After.{after_attributes};

use crate::block::parse_compound_statement;
use std::alloc::Global;
use wgsl_lex_token::kind::TokenKind;
use wgsl_read_cursor::{Cursor, Fault};
use wgsl_read_expression::parse_expression;
use wgsl_read_part::parse_condition;
use wgsl_tree_attribute::Attributes;
use wgsl_tree_statement::{ElseClause, ElseIfClause, IfClause, IfStatement, Statement};

/// Reads an `if` with all of its clauses, after its attributes.
#[tactic(auto, using(crate::proofs::IfChains::ifs))]
#[inline(never)]
#[cycle(statement)]
pub fn parse_if_part(
    alloc: Global,
    tokens: &mut Cursor,
    attributes: Attributes,
) -> Result<Statement, Fault>
    ensures { Parses statement_view result tokens.old tokens.new (after_attributes statement
        (attributes_view attributes.items) (reader (further if_part))) }
{
    let expression = parse_condition(alloc, tokens, TokenKind::KwIf)?;
    let body = parse_compound_statement(alloc, tokens)?;
    let (else_if_clauses, else_clause) = parse_else_rest(alloc, tokens)?;
    Ok(Statement::If(IfStatement {
        attributes,
        if_clause: IfClause { expression, body },
        else_if_clauses,
        else_clause,
    }))
}

/// The clauses after the first.
#[inline(never)]
#[cycle(statement)]
fn parse_else_rest(
    alloc: Global,
    tokens: &mut Cursor,
) -> Result<(Vec<ElseIfClause>, Option<ElseClause>), Fault>
    ensures { ParsesNullable (λ rest. (map else_if_clause_view rest.0.items, option_map else_clause_view rest.1)) result tokens.old tokens.new (reader (further else_rest)) }
{
    let mut clauses = Vec::new(alloc);
    'clauses: while tokens.eat(TokenKind::KwElse) {
        if !tokens.eat(TokenKind::KwIf) {
            let body = parse_compound_statement(alloc, tokens)?;
            let clause = ElseClause {
                attributes: Vec::new(alloc),
                body,
            };
            return Ok((clauses, Some(clause)));
        }
        let expression = parse_expression(alloc, tokens)?;
        let body = parse_compound_statement(alloc, tokens)?;
        clauses.push(ElseIfClause {
            attributes: Vec::new(alloc),
            expression,
            body,
        })?;
    }
    Ok((clauses, None))
}
