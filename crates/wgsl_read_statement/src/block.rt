//! Blocks.
#![tactic(auto, unfolding(crate::proofs::Hints::definitions), using(crate::proofs::Hints::lemmas))]

ghost use Rattle.std.specs.Prelude.{map};
ghost use Rattle.wgsl_model.specs.Trees.Statements.{statement};
ghost use Rattle.wgsl_model.specs.Grammar.Symbols.{Symbol.compound_statement};
ghost use Rattle.wgsl_tree_attribute.specs.View.{attributes_view};
ghost use Rattle.wgsl_tree_statement.specs.View.{statement_view, statement_node_view, compound_statement_view};
ghost use Rattle.wgsl_theory_grammar.specs.Factored.{FactoredSymbol.of, FactoredSymbol.further, Further.block_part, Further.statement_rest};
ghost use Rattle.wgsl_theory_grammar.specs.Reader.{reader};
ghost use Rattle.wgsl_read_cursor.specs.Reading.{Parses};
ghost use Rattle.wgsl_read_attribute.specs.After.{after_attributes};

use crate::statement::parse_statement;
use std::alloc::Global;
use wgsl_lex_token::kind::TokenKind;
use wgsl_read_cursor::{Cursor, Fault, add};
use wgsl_read_part::parse_block_start;
use wgsl_tree_attribute::Attributes;
use wgsl_tree_statement::{CompoundStatement, Statement, StatementNode};

/// Reads a block.
#[tactic(auto, using(crate::proofs::Blocks::compounds))]
#[cycle(statement)]
pub fn parse_compound_statement(
    alloc: Global,
    tokens: &mut Cursor,
) -> Result<CompoundStatement, Fault>
    ensures { Parses compound_statement_view result tokens.old tokens.new
        (reader (of compound_statement)) }
{
    let attributes = parse_block_start(alloc, tokens)?;
    let statements = parse_statement_rest(alloc, tokens)?;
    Ok(CompoundStatement {
        attributes,
        statements,
    })
}

/// Reads a block as a statement, after its attributes.
#[tactic(auto, using(crate::proofs::Blocks::blocks))]
#[inline(never)]
#[cycle(statement)]
pub fn parse_block_part(
    alloc: Global,
    tokens: &mut Cursor,
    attributes: Attributes,
) -> Result<Statement, Fault>
    ensures { Parses statement_view result tokens.old tokens.new (after_attributes statement
        (attributes_view attributes.items) (reader (further block_part))) }
{
    tokens.expect(TokenKind::SymBraceLeft)?;
    let statements = parse_statement_rest(alloc, tokens)?;
    Ok(Statement::Compound(CompoundStatement {
        attributes,
        statements,
    }))
}

/// Statements up to the `}` after them.
#[cycle(statement)]
fn parse_statement_rest(alloc: Global, tokens: &mut Cursor) -> Result<Vec<StatementNode>, Fault>
    ensures { Parses
        (λ statements. map statement_node_view statements.items) result tokens.old tokens.new
        (reader (further statement_rest)) }
{
    let mut statements = Vec::new(alloc);
    'statements: while !tokens.eat(TokenKind::SymBraceRight) {
        add(&mut statements, parse_statement(alloc, tokens)?)?;
    }
    Ok(statements)
}
