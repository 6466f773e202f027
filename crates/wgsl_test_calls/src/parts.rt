//! Parts of modules: how deep a text nests and where, an expression by itself, a tree that is made by hand.

ghost use Rattle.std.specs.Prelude.{◌≡◌, ◌↔◌, ◌≤◌, ◌++◌, List, IfOk, IsTrue, chars, codes, option_map, string_bytes};
ghost use Rattle.wgsl_parse.specs.Tokens as grammar;
ghost use Rattle.wgsl_parse.specs.Endings.{Ending};
ghost use Rattle.wgsl_parse.specs.TokenList.{IsTokenList};
ghost use Rattle.wgsl_parse.specs.Expressions.{ExpressionNode.expression_node};
ghost use Rattle.wgsl_parse.specs.Symbols.{Symbol.expression};
ghost use Rattle.wgsl_parse.specs.SourceTrees.{IsTreeOf};
ghost use Rattle.wgsl_parse.specs.Sources.{IsRead};
ghost use Rattle.wgsl_parse.specs.Iterators.{Derived, IsParsed};
ghost use Rattle.wgsl_parse.specs.ExpressionView.{expression_view};
ghost use Rattle.wgsl_parse.specs.SpanView.{span_view};
ghost use Rattle.wgsl_parse.specs.Nesting.{nesting};
ghost use Rattle.wgsl_parse.specs.Deeper.{IsFirstDeeper};

use std::alloc::{AllocError, Global};
use wgsl_parse::error::Error;
use wgsl_parse::lexer::TokenIterator;
use wgsl_parse::parser::{ExpressionParser, FromSource, first_deeper, nesting};
use wgsl_parse::span::Span;
use wgsl_parse::syntax::{Expression, Ident, TypeAlias, TypeExpression};

/// Returns whether a text nests no deeper than a limit, so that a stack of a known size bears it.
pub fn nests_within(alloc: Global, source: &str, limit: usize) -> Result<bool, Error>
    ensures { IfOk result (λ fits. (ts : List grammar.Token) × (e : Ending)
        × IsTokenList (chars source.now) ts e × (IsTrue fits ↔ (nesting ts ≤ limit))) }
{
    Ok(nesting(alloc, source)? <= limit)
}

/// Returns where a text first nests deeper than a limit, to report it.
pub fn too_deep_at(alloc: Global, source: &str, limit: usize) -> Result<Option<Span>, Error>
    ensures { IfOk result (λ found. (ts : List grammar.Token) × (e : Ending)
        × IsTokenList (chars source.now) ts e
        × IsFirstDeeper limit ts (option_map span_view found)) }
{
    first_deeper(alloc, source, limit)
}

/// Reads the expression that a text is.
pub fn expression_of(alloc: Global, source: &str) -> Result<Expression, Error>
    ensures { IsRead expression (λ e. (s : grammar.Span) × IsTreeOf expression (chars source.now)
        (expression_node (expression_view e) s)) source.now result }
{
    Expression::from_str(alloc, source)
}

/// Reads the expression that the tokens of an iterator are, a `Lexer` for one.
pub fn expression_of_tokens<T: TokenIterator>(alloc: Global, tokens: T) -> Result<Expression, Error>
    ensures { IsParsed expression (λ e found. (s : grammar.Span)
        × Derived expression (expression_node (expression_view e) s) found)
        (T.into_iter_gives tokens) T.IntoIter.next_gives result }
{
    ExpressionParser::new().parse(alloc, tokens)
}

/// Returns `alias NAME = TYPE;`, from a tree that is made by hand.
pub fn alias_text(alloc: Global, name: String, ty: String) -> Result<String, AllocError>
    ensures { IfOk result (λ text. string_bytes text ≡ codes "alias " ++ string_bytes name
        ++ codes " = " ++ string_bytes ty ++ codes ";") }
{
    let ty = TypeExpression::new(Ident::new(ty));
    TypeAlias::new(alloc, Ident::new(name), ty).to_string(alloc)
}
