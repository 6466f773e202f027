//! Reading all of a text, or all tokens that an iterator gives.

ghost use Rattle.std.specs.Prelude.{chars, List};
ghost use Rattle.grammar.specs.Tokens.{Token};
ghost use Rattle.grammar.specs.Endings.{Ending};
ghost use Rattle.wgsl_model.specs.SourceTrees.{IsTreeOf};
ghost use Rattle.wgsl_theory_grammar.specs.Answers.{answer_of};
ghost use Rattle.wgsl_lexer.specs.Placed.{tokens_view, ending_view};
ghost use Rattle.wgsl_read_cursor.specs.Answers.{Answered};
ghost use Rattle.wgsl_read_cursor.specs.Origins.{IsSourceOf};
ghost use Rattle.wgsl_parser.specs.Iterators.{Derived, IsParsed};
ghost use Rattle.wgsl_parser.specs.Sources.{IsRead};

use crate::parsed::Parsed;
use std::alloc::Global;
use wgsl_error::Error;
use wgsl_lexer::{Collected, TokenIterator, collect_tokens};
use wgsl_read_cursor::TokenSource;

/// What all tokens of a source are.
#[tactic(auto, using(wgsl_read_cursor::proofs::Seen::source_seen))]
fn read_all<P: Parsed>(alloc: Global, source: TokenSource) -> Result<P, Error>
    ensures { (ts : List Token) (ending : Ending) →
        IsSourceOf source.entry ts ending → Answered P.view result (answer_of P.symbol ts ending) }
{
    let mut source = source;
    let read = P::parse(alloc, &mut source.tokens);
    let expected = P::expected_after(&read);
    source.answer(alloc, read, expected)
}

/// What a text is, which may nest a number of levels deep.
pub(crate) fn read_text<P: Parsed>(alloc: Global, source: &str, depth: usize) -> Result<P, Error>
    ensures { IsRead P.symbol
        (λ v. IsTreeOf P.symbol (chars source.now) (P.view v)) source.now result }
{
    read_all(alloc, TokenSource::of_text(alloc, source, depth)?)
}

/// What tokens are that were collected.
pub(crate) fn read_collected<P: Parsed>(alloc: Global, found: Collected) -> Result<P, Error>
    ensures { Answered P.view result
        (answer_of P.symbol (tokens_view found) (ending_view found.error)) }
{
    read_all(alloc, TokenSource::new(found)?)
}

/// What the tokens of an iterator are.
pub(crate) fn read_tokens<P: Parsed, T: TokenIterator>(alloc: Global, tokens: T) -> Result<P, Error>
    ensures { IsParsed P.symbol (λ v found. Derived P.symbol (P.view v) found)
        (T.into_iter_gives tokens) T.IntoIter.next_gives result }
{
    read_collected(alloc, collect_tokens(alloc, tokens)?)
}
