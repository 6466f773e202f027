//! Where a text first nests deeper than a number of levels.

ghost use Rattle.std.specs.Prelude.{◌≡◌, [], chars, false, option_map, IfErr, IfOk, List};
ghost use Rattle.grammar.specs.Tokens as grammar;
ghost use Rattle.grammar.specs.Endings.{Ending};
ghost use Rattle.wgsl_model.specs.Faults.Kinds.{span_of_token};
ghost use Rattle.wgsl_model.specs.Tokens.TokenList.{IsTokenList};
ghost use Rattle.wgsl_span.specs.View.{span_view};
ghost use Rattle.wgsl_lexer.specs.TextTokens.{tokens_left};
ghost use Rattle.wgsl_read_cursor.specs.Answers.{IsOutOfMemory};
ghost use Rattle.wgsl_read_nesting.specs.Deeper.{first_deeper, IsFirstDeeper};

use crate::depth::{take, take_next};
use crate::effect::is_operand_end;
use crate::open::Opened;
use std::alloc::{AllocError, Global};
use wgsl_error::Error;
use wgsl_lexer::TextTokens;
use wgsl_span::Span;

fn first_of(alloc: Global, tokens: TextTokens, depth: usize) -> Result<Option<Span>, AllocError>
    ensures { IfOk result (λ found. option_map span_view found
        ≡ option_map span_of_token (first_deeper depth false [] (tokens_left tokens.entry))) }
{
    let mut tokens = tokens;
    let mut opened = Opened::new(alloc);
    let mut after_operand = false;
    'tokens: while let Some((kind, span)) = take_next(&mut tokens) {
        take(&mut opened, after_operand, kind)?;
        if opened.depth() > depth {
            return Ok(Some(span));
        }
        after_operand = is_operand_end(kind);
    }
    Ok(None)
}

/// Returns where the first token of a text is with which more than a number of brackets, blocks,
/// template lists and prefix operators are open, if there is one before the first invalid token.
/// The error is of the kind `OutOfMemory`.
pub fn first_deeper(alloc: Global, source: &str, depth: usize) -> Result<Option<Span>, Error>
    ensures value { IfOk result (λ found. (ts : List grammar.Token) ×
        (e : Ending) × IsTokenList (chars source.now) ts e
        × IsFirstDeeper depth ts (option_map span_view found)) }
    ensures refused { IfErr result IsOutOfMemory }
{
    let tokens = TextTokens::new(alloc, source)?;
    Ok(first_of(alloc, tokens, depth)?)
}
