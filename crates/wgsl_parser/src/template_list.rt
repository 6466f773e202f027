//! Reading a template list from all tokens of an iterator.

ghost use Rattle.std.specs.Prelude.{◌≡◌, List, map};
ghost use Rattle.grammar.specs.Tokens.{last_end};
ghost use Rattle.grammar.specs.States.{first_start};
ghost use Rattle.wgsl_model.specs.Trees.Expressions as plain;
ghost use Rattle.wgsl_model.specs.Grammar.Symbols.{Symbol.template_list};
ghost use Rattle.wgsl_lex_token.specs.Placed.{placed_view};
ghost use Rattle.wgsl_lexer.specs.Placed.{tokens_view, ending_view};
ghost use Rattle.wgsl_parser.specs.Iterators.{Derived, IsParsed};
ghost use Rattle.wgsl_parser.specs.Spans.{IsSpanOf, SpanAnswered};

use crate::read::read_collected;
use std::alloc::Global;
use std::collections::VecDeque;
use wgsl_error::Error;
use wgsl_lex_token::placed::PlacedToken;
use wgsl_lexer::{Collected, TokenIterator, collect_tokens};
use wgsl_span::Span;
use wgsl_tree_expression::TemplateArg;

/// Where the first token starts, or 0 where there is none.
fn first_start(tokens: &VecDeque<PlacedToken>) -> usize
    ensures { result ≡ first_start (map placed_view tokens.now.items) }
{
    match tokens.front() {
        Some(first) => first.span.start,
        None => 0,
    }
}

/// Where the last token ends, or 0 where there is none.
#[tactic(auto, using(crate::proofs::Spans::last_is))]
fn last_end(tokens: &VecDeque<PlacedToken>) -> usize
    ensures { result ≡ last_end 0 (map placed_view tokens.now.items) }
{
    match tokens.back() {
        Some(last) => last.span.end,
        None => 0,
    }
}

/// From where the first token starts to where the last one ends.
#[tactic(auto, using(crate::proofs::Spans::span_is))]
fn span_of(found: &Collected) -> Span
    ensures { IsSpanOf result (tokens_view found.now) }
{
    Span {
        start: first_start(&found.tokens),
        end: last_end(&found.tokens),
    }
}

/// The span of the template list that the tokens are.
fn template_list_of(alloc: Global, found: Collected) -> Result<Span, Error>
    ensures { SpanAnswered result (tokens_view found) (ending_view found.error) }
{
    let span = span_of(&found);
    read_collected::<Vec<TemplateArg>>(alloc, found)?;
    Ok(span)
}

/// A parser that reads a template list from all tokens of an iterator. It keeps nothing between
/// calls.
#[derive(Default, Drop)]
pub struct TryTemplateListParser;

impl TryTemplateListParser {
    /// Returns a parser of template lists.
    pub fn new() -> Self {
        TryTemplateListParser
    }

    /// Returns the span of the template list that the tokens are, from its start to its end, or
    /// what is wrong with them. After its first error the iterator is asked for nothing more.
    pub fn parse<T: TokenIterator>(&self, alloc: Global, tokens: T) -> Result<Span, Error>
        ensures { IsParsed template_list (λ span found. (es : List plain.ExpressionNode) ×
            Derived template_list es found × IsSpanOf span (tokens_view found))
            (T.into_iter_gives tokens) T.IntoIter.next_gives result }
    {
        template_list_of(alloc, collect_tokens(alloc, tokens)?)
    }
}

/// Checks whether all tokens of an iterator are a template list: returns `Ok` where they are, else
/// what is wrong with them.
pub fn recognize_template_list<T: TokenIterator>(alloc: Global, lexer: T) -> Result<(), Error>
    ensures { IsParsed template_list (λ _ found. (es : List plain.ExpressionNode) ×
        Derived template_list es found) (T.into_iter_gives lexer) T.IntoIter.next_gives result }
{
    TryTemplateListParser::new().parse(alloc, lexer)?;
    Ok(())
}
