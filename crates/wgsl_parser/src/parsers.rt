//! Parsers of lists of tokens that iterators give.

ghost use Rattle.grammar.specs.Tokens.{Span};
ghost use Rattle.wgsl_model.specs.Trees.Expressions.{ExpressionNode.expression_node};
ghost use Rattle.wgsl_model.specs.Trees.Statements.{StatementNode.statement_node};
ghost use Rattle.wgsl_model.specs.Trees.Spanned.{spanned};
ghost use Rattle.wgsl_model.specs.Grammar.Symbols.{Symbol.unit, Symbol.global_directive, Symbol.global_declaration, Symbol.statement, Symbol.expression, Symbol.literal};
ghost use Rattle.wgsl_tree_expression.specs.View.{expression_view, literal_view};
ghost use Rattle.wgsl_tree_statement.specs.View.{statement_view};
ghost use Rattle.wgsl_tree_unit.specs.View.{unit_view, global_directive_view, global_declaration_view};
ghost use Rattle.wgsl_parser.specs.Iterators.{Derived, IsParsed};

use crate::read::read_tokens;
use std::alloc::Global;
use wgsl_error::Error;
use wgsl_lexer::TokenIterator;
use wgsl_tree_expression::{Expression, ExpressionNode, LiteralExpression};
use wgsl_tree_statement::{Statement, StatementNode};
use wgsl_tree_unit::{GlobalDeclaration, GlobalDeclarationNode, GlobalDirective, TranslationUnit};

/// A parser that reads a module from all tokens of an iterator. It keeps nothing between calls.
#[derive(Default, Drop)]
pub struct TranslationUnitParser;

impl TranslationUnitParser {
    /// Returns a parser of modules.
    pub fn new() -> Self {
        TranslationUnitParser
    }

    /// Reads the module that the tokens are, or returns what is wrong with them. After its first
    /// error the iterator is asked for nothing more.
    pub fn parse<T: TokenIterator>(
        &self,
        alloc: Global,
        tokens: T,
    ) -> Result<TranslationUnit, Error>
        ensures { IsParsed unit (λ v found. Derived unit (unit_view v) found)
            (T.into_iter_gives tokens) T.IntoIter.next_gives result }
    {
        read_tokens::<TranslationUnit, T>(alloc, tokens)
    }
}

/// A parser that reads a directive from all tokens of an iterator. It keeps nothing between calls.
#[derive(Default, Drop)]
pub struct GlobalDirectiveParser;

impl GlobalDirectiveParser {
    /// Returns a parser of directives.
    pub fn new() -> Self {
        GlobalDirectiveParser
    }

    /// Reads the directive that the tokens are, or returns what is wrong with them. After its first
    /// error the iterator is asked for nothing more.
    pub fn parse<T: TokenIterator>(
        &self,
        alloc: Global,
        tokens: T,
    ) -> Result<GlobalDirective, Error>
        ensures { IsParsed global_directive
            (λ v found. Derived global_directive (global_directive_view v) found)
            (T.into_iter_gives tokens) T.IntoIter.next_gives result }
    {
        read_tokens::<GlobalDirective, T>(alloc, tokens)
    }
}

/// A parser that reads a declaration from all tokens of an iterator. It keeps nothing between
/// calls.
#[derive(Default, Drop)]
pub struct GlobalDeclParser;

impl GlobalDeclParser {
    /// Returns a parser of declarations.
    pub fn new() -> Self {
        GlobalDeclParser
    }

    /// Reads the declaration that the tokens are, or returns what is wrong with them. After its
    /// first error the iterator is asked for nothing more.
    #[tactic(auto, using(crate::proofs::Given::refused_alike))]
    pub fn parse<T: TokenIterator>(
        &self,
        alloc: Global,
        tokens: T,
    ) -> Result<GlobalDeclaration, Error>
        ensures { IsParsed global_declaration (λ d found. (s : Span) ×
            Derived global_declaration (spanned (global_declaration_view d) s) found)
            (T.into_iter_gives tokens) T.IntoIter.next_gives result }
    {
        Ok(read_tokens::<GlobalDeclarationNode, T>(alloc, tokens)?.into_inner())
    }
}

/// A parser that reads a statement from all tokens of an iterator. It keeps nothing between calls.
#[derive(Default, Drop)]
pub struct StatementParser;

impl StatementParser {
    /// Returns a parser of statements.
    pub fn new() -> Self {
        StatementParser
    }

    /// Reads the statement that the tokens are, or returns what is wrong with them. After its first
    /// error the iterator is asked for nothing more.
    #[tactic(auto, using(crate::proofs::Given::refused_alike))]
    pub fn parse<T: TokenIterator>(&self, alloc: Global, tokens: T) -> Result<Statement, Error>
        ensures { IsParsed statement (λ s found. (place : Span) ×
            Derived statement (statement_node (statement_view s) place) found)
            (T.into_iter_gives tokens) T.IntoIter.next_gives result }
    {
        Ok(read_tokens::<StatementNode, T>(alloc, tokens)?.into_inner())
    }
}

/// A parser that reads an expression from all tokens of an iterator. It keeps nothing between
/// calls.
#[derive(Default, Drop)]
pub struct ExpressionParser;

impl ExpressionParser {
    /// Returns a parser of expressions.
    pub fn new() -> Self {
        ExpressionParser
    }

    /// Reads the expression that the tokens are, or returns what is wrong with them. After its
    /// first error the iterator is asked for nothing more.
    #[tactic(auto, using(crate::proofs::Given::refused_alike))]
    pub fn parse<T: TokenIterator>(&self, alloc: Global, tokens: T) -> Result<Expression, Error>
        ensures { IsParsed expression (λ e found. (s : Span) × Derived expression (expression_node
            (expression_view e) s) found) (T.into_iter_gives tokens) T.IntoIter.next_gives result }
    {
        Ok(read_tokens::<ExpressionNode, T>(alloc, tokens)?.into_inner())
    }
}

/// A parser that reads a literal from all tokens of an iterator. It keeps nothing between calls.
#[derive(Default, Drop)]
pub struct LiteralParser;

impl LiteralParser {
    /// Returns a parser of literals.
    pub fn new() -> Self {
        LiteralParser
    }

    /// Reads the literal that the tokens are, or returns what is wrong with them. After its first
    /// error the iterator is asked for nothing more.
    pub fn parse<T: TokenIterator>(
        &self,
        alloc: Global,
        tokens: T,
    ) -> Result<LiteralExpression, Error>
        ensures { IsParsed literal (λ v found. Derived literal (literal_view v) found)
            (T.into_iter_gives tokens) T.IntoIter.next_gives result }
    {
        read_tokens::<LiteralExpression, T>(alloc, tokens)
    }
}
