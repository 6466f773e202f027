//! How many brackets, blocks, template lists and prefix operators are open at one place.

ghost use Rattle.std.specs.Prelude.{◌≡◌, [], chars, false, IfOk, IfErr, List, MatchOption};
ghost use Rattle.grammar.specs.Tokens as grammar;
ghost use Rattle.grammar.specs.Endings.{Ending};
ghost use Rattle.wgsl_model.specs.Tokens.TokenList.{IsTokenList};
ghost use Rattle.wgsl_read_cursor.specs.Answers.{IsOutOfMemory};
ghost use Rattle.wgsl_read_nesting.specs.Nesting.{deepest, nesting, open_after, is_operand_end};
ghost use Rattle.wgsl_read_nesting.specs.Effects.{token_classes, IsNext};
ghost use Rattle.wgsl_lex_token.specs.View.{class_of_kind};
ghost use Rattle.wgsl_lexer.specs.TextTokens.{tokens_left};

use crate::effect::{Effect, effect_of, is_operand_end};
use crate::open::{Open, Opened};
use std::alloc::{AllocError, Global};
use wgsl_error::Error;
use wgsl_lex_token::kind::TokenKind;
use wgsl_lexer::TextTokens;
use wgsl_span::Span;

/// Opens and closes what a token does.
pub(crate) fn take(
    opened: &mut Opened,
    after_operand: bool,
    kind: TokenKind,
) -> Result<(), AllocError>
    ensures { IfOk result (λ _.
        opened.new ≡ open_after after_operand (class_of_kind kind) opened.old) }
{
    match effect_of(kind) {
        Effect::Opens => opened.push(Open::Bracket)?,
        Effect::Closes => {
            opened.close_operators();
            opened.pop();
        }
        Effect::GoesOn => {}
        Effect::MayPrefix => {
            if after_operand {
                opened.close_operators();
            } else {
                opened.push(Open::Operator)?;
            }
        }
        Effect::Ends => opened.close_operators(),
    }
    Ok(())
}

/// The kind of the next token, which is taken, and where it is.
#[tactic(auto, using(crate::proofs::Next::is_next))]
pub(crate) fn take_next(tokens: &mut TextTokens) -> Option<(TokenKind, Span)>
    ensures { MatchOption result (tokens_left tokens.old ≡ [])
        (λ next. IsNext next.0 next.1 (tokens_left tokens.old) (tokens_left tokens.new)) }
{
    let kind = tokens.kind()?;
    let span = tokens.span()?;
    tokens.skip();
    Some((kind, span))
}

fn nesting_of(alloc: Global, tokens: TextTokens) -> Result<usize, AllocError>
    ensures { IfOk result (λ depth. depth ≡ deepest false [] (token_classes tokens.entry)) }
{
    let mut tokens = tokens;
    let mut opened = Opened::new(alloc);
    let mut after_operand = false;
    let mut deepest = 0;
    'tokens: while let Some((kind, _)) = take_next(&mut tokens) {
        deepest = deepest.max(opened.depth());
        take(&mut opened, after_operand, kind)?;
        after_operand = is_operand_end(kind);
    }
    Ok(deepest.max(opened.depth()))
}

/// Returns the greatest number of brackets, blocks, template lists and prefix operators that are
/// open at one place of a text, up to its first invalid token. A text is parsed, printed and
/// dropped on a stack that grows with this number. The error is of the kind `OutOfMemory`.
pub fn nesting(alloc: Global, source: &str) -> Result<usize, Error>
    ensures value { IfOk result (λ depth. (ts : List grammar.Token) ×
        (e : Ending) × IsTokenList (chars source.now) ts e × (depth ≡ nesting ts)) }
    ensures refused { IfErr result IsOutOfMemory }
{
    let tokens = TextTokens::new(alloc, source)?;
    Ok(nesting_of(alloc, tokens)?)
}
