//! What can be read from a text.

ghost use Rattle.std.specs.Prelude.{ℕ, List, Result, chars};
ghost use Rattle.wgsl_error.specs.declared.Error.{Error};
ghost use Rattle.grammar.specs.Tokens.{Span};
ghost use Rattle.wgsl_model.specs.Trees.Expressions.{ExpressionNode.expression_node};
ghost use Rattle.wgsl_model.specs.Trees.Statements.{StatementNode.statement_node};
ghost use Rattle.wgsl_model.specs.Trees.Spanned.{spanned};
ghost use Rattle.wgsl_model.specs.Grammar.Symbols.{Symbol.unit, Symbol.global_directive, Symbol.global_declaration, Symbol.statement, Symbol.expression};
ghost use Rattle.wgsl_tree_expression.specs.View.{expression_view};
ghost use Rattle.wgsl_tree_statement.specs.View.{statement_view};
ghost use Rattle.wgsl_tree_unit.specs.View.{unit_view, global_directive_view, global_declaration_view};
ghost use Rattle.wgsl_model.specs.SourceTrees.{IsTreeOf};
ghost use Rattle.wgsl_parser.specs.Sources.{IsRead};

use crate::read::read_text;
use std::alloc::Global;
use wgsl_error::Error;
use wgsl_tree_expression::{Expression, ExpressionNode};
use wgsl_tree_statement::{Statement, StatementNode};
use wgsl_tree_unit::{GlobalDeclaration, GlobalDeclarationNode, GlobalDirective, TranslationUnit};

/// A tree that can be read from a text, whole and by itself.
pub trait FromSource: Sized {
    // What is returned for a source.
    ghost reads: { List ℕ → Result Self Error → Type 0 };

    /// Reads the whole text, or returns what is wrong with it. The span of a node is left out: it
    /// is that of all of its tokens.
    fn from_str(alloc: Global, source: &str) -> Result<Self, Error>
        ensures { reads source.now result };
}

impl FromSource for TranslationUnit {
    ghost reads = { λ source result. IsRead unit (λ u. IsTreeOf unit (chars source) (unit_view u)) source result };

    fn from_str(alloc: Global, source: &str) -> Result<Self, Error> {
        read_text::<TranslationUnit>(alloc, source, usize::MAX)
    }
}

impl FromSource for GlobalDirective {
    ghost reads = { λ source result. IsRead global_directive (λ d. IsTreeOf global_directive (chars source) (global_directive_view d)) source result };

    fn from_str(alloc: Global, source: &str) -> Result<Self, Error> {
        read_text::<GlobalDirective>(alloc, source, usize::MAX)
    }
}

impl FromSource for GlobalDeclaration {
    ghost reads = { λ source result. IsRead global_declaration (λ d. (s : Span) × IsTreeOf global_declaration (chars source) (spanned (global_declaration_view d) s)) source result };

    #[tactic(auto, using(crate::proofs::Texts::alike))]
    fn from_str(alloc: Global, source: &str) -> Result<Self, Error> {
        Ok(read_text::<GlobalDeclarationNode>(alloc, source, usize::MAX)?.into_inner())
    }
}

impl FromSource for Statement {
    ghost reads = { λ source result. IsRead statement (λ s. (place : Span) × IsTreeOf statement (chars source) (statement_node (statement_view s) place)) source result };

    #[tactic(auto, using(crate::proofs::Texts::alike))]
    fn from_str(alloc: Global, source: &str) -> Result<Self, Error> {
        Ok(read_text::<StatementNode>(alloc, source, usize::MAX)?.into_inner())
    }
}

impl FromSource for Expression {
    ghost reads = { λ source result. IsRead expression (λ e. (s : Span) × IsTreeOf expression (chars source) (expression_node (expression_view e) s)) source result };

    #[tactic(auto, using(crate::proofs::Texts::alike))]
    fn from_str(alloc: Global, source: &str) -> Result<Self, Error> {
        Ok(read_text::<ExpressionNode>(alloc, source, usize::MAX)?.into_inner())
    }
}
