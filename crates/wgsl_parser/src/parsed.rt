//! What is read by itself, each symbol of the grammar with its tree.

ghost use Rattle.std.specs.Prelude.{map};
ghost use Rattle.wgsl_model.specs.Grammar.Symbols.{Symbol, Value, Symbol.unit, Symbol.global_directive, Symbol.global_declaration, Symbol.statement, Symbol.expression, Symbol.literal, Symbol.template_list};
ghost use Rattle.wgsl_theory_grammar.specs.Factored.{FactoredSymbol.of};
ghost use Rattle.wgsl_theory_grammar.specs.Reader.{reader};
ghost use Rattle.wgsl_span.specs.View.{spanned_view};
ghost use Rattle.wgsl_tree_expression.specs.View.{expression_node_view, literal_view, template_arg_view};
ghost use Rattle.wgsl_tree_statement.specs.View.{statement_node_view};
ghost use Rattle.wgsl_tree_unit.specs.View.{unit_view, global_directive_view, global_declaration_view};
ghost use Rattle.wgsl_read_cursor.specs.Reading.{state, Gives};

use std::alloc::Global;
use wgsl_lex_token::kind::TokenKind;
use wgsl_read_cursor::{Cursor, Expected, Fault};
use wgsl_read_expression::{parse_expression, parse_literal, parse_template_list};
use wgsl_read_unit::{
    parse_global_declaration, parse_global_directive, parse_statement, parse_translation_unit,
};
use wgsl_tree_expression::{ExpressionNode, LiteralExpression, TemplateArg};
use wgsl_tree_statement::{Statement, StatementNode};
use wgsl_tree_unit::{GlobalDeclarationNode, GlobalDirective, TranslationUnit};

/// What is read by itself, from a text or from tokens.
pub(crate) trait Parsed: Sized + Drop {
    // its symbol of the grammar
    ghost symbol: { Symbol };
    // the tree that it is
    ghost view: { Self → Value symbol };

    /// Reads it at the front of the tokens.
    fn parse(alloc: Global, tokens: &mut Cursor) -> Result<Self, Fault>
        ensures { Gives view result (state tokens.new) (reader (of symbol) (state tokens.old)) };

    /// What could be after it, where a token is left.
    fn expected_after(read: &Result<Self, Fault>) -> Expected;
}

impl Parsed for TranslationUnit {
    ghost symbol = { unit };

    ghost view = { unit_view };

    fn parse(alloc: Global, tokens: &mut Cursor) -> Result<Self, Fault> {
        parse_translation_unit(alloc, tokens)
    }

    /// More declarations, and directives where no declaration is yet.
    fn expected_after(read: &Result<Self, Fault>) -> Expected {
        match read {
            Ok(unit) if unit.global_declarations.is_empty() => Expected::DIRECTIVE_OR_DECLARATION,
            _ => Expected::DECLARATION,
        }
    }
}

impl Parsed for GlobalDirective {
    ghost symbol = { global_directive };

    ghost view = { global_directive_view };

    fn parse(alloc: Global, tokens: &mut Cursor) -> Result<Self, Fault> {
        parse_global_directive(alloc, tokens)
    }

    fn expected_after(_read: &Result<Self, Fault>) -> Expected {
        Expected::End
    }
}

impl Parsed for GlobalDeclarationNode {
    ghost symbol = { global_declaration };

    ghost view = { spanned_view global_declaration_view };

    fn parse(alloc: Global, tokens: &mut Cursor) -> Result<Self, Fault> {
        parse_global_declaration(alloc, tokens)
    }

    fn expected_after(_read: &Result<Self, Fault>) -> Expected {
        Expected::End
    }
}

impl Parsed for StatementNode {
    ghost symbol = { statement };

    ghost view = { statement_node_view };

    fn parse(alloc: Global, tokens: &mut Cursor) -> Result<Self, Fault> {
        parse_statement(alloc, tokens)
    }

    /// `else` where it ends with an `if` or an `else if`.
    fn expected_after(read: &Result<Self, Fault>) -> Expected {
        match read {
            Ok(node) => match node.node() {
                Statement::If(statement) if statement.else_clause.is_none() => {
                    Expected::One(TokenKind::KwElse)
                }
                _ => Expected::End,
            },
            Err(_) => Expected::End,
        }
    }
}

impl Parsed for ExpressionNode {
    ghost symbol = { expression };

    ghost view = { expression_node_view };

    fn parse(alloc: Global, tokens: &mut Cursor) -> Result<Self, Fault> {
        parse_expression(alloc, tokens)
    }

    /// A component, an operator, the arguments of a call or a template list.
    fn expected_after(_read: &Result<Self, Fault>) -> Expected {
        Expected::OneOf(&[
            TokenKind::SymAnd,
            TokenKind::SymAndAnd,
            TokenKind::SymForwardSlash,
            TokenKind::SymBracketLeft,
            TokenKind::SymEqualEqual,
            TokenKind::SymNotEqual,
            TokenKind::SymGreaterThan,
            TokenKind::SymGreaterThanEqual,
            TokenKind::SymShiftRight,
            TokenKind::SymLessThan,
            TokenKind::SymLessThanEqual,
            TokenKind::SymShiftLeft,
            TokenKind::SymModulo,
            TokenKind::SymMinus,
            TokenKind::SymMinusMinus,
            TokenKind::SymPeriod,
            TokenKind::SymPlus,
            TokenKind::SymOr,
            TokenKind::SymOrOr,
            TokenKind::SymParenLeft,
            TokenKind::SymStar,
            TokenKind::SymXor,
            TokenKind::TemplateArgsStart,
        ])
    }
}

impl Parsed for LiteralExpression {
    ghost symbol = { literal };

    ghost view = { literal_view };

    fn parse(alloc: Global, tokens: &mut Cursor) -> Result<Self, Fault> {
        parse_literal(alloc, tokens, Expected::LITERAL)
    }

    fn expected_after(_read: &Result<Self, Fault>) -> Expected {
        Expected::End
    }
}

impl Parsed for Vec<TemplateArg> {
    ghost symbol = { template_list };

    ghost view = { λ args. map template_arg_view args.items };

    fn parse(alloc: Global, tokens: &mut Cursor) -> Result<Self, Fault> {
        parse_template_list(alloc, tokens)
    }

    fn expected_after(_read: &Result<Self, Fault>) -> Expected {
        Expected::End
    }
}
