//! The shortest text of a source, from its tokens.

ghost use Rattle.std.specs.Prelude.{◌≡◌, chars, string_bytes, IfOk};
ghost use Rattle.wgsl_model.specs.Tokens.TokenList.{IsTokenList};
ghost use Rattle.wgsl_lexer.specs.TextTokens.{tokens_left, ending_left};
ghost use Rattle.wgsl_model_short.specs.Shortest as model;

use crate::spaces::gap;
use std::alloc::{AllocError, Global};
use wgsl_lex_token::kind::TokenKind;
use wgsl_lexer::TextTokens;

/// The shortest text of a source with these tokens.
pub(crate) fn shortest(
    alloc: Global,
    source: &str,
    tokens: TextTokens,
) -> Result<String, AllocError>
    requires { IsTokenList (chars source.now) (tokens_left tokens) (ending_left tokens) }
    ensures { IfOk result (λ text. chars (string_bytes text)
        ≡ model.shortest (chars source.now) (tokens_left tokens.entry)) }
{
    let mut tokens = tokens;
    let mut text = String::with_capacity(alloc, source.len())?;
    let mut last = TokenKind::SymSemicolon;
    'tokens: while let (Some(kind), Some(span)) = (tokens.kind(), tokens.span()) {
        let token = &source[span.start..span.end];
        text.push_str(gap(last, token))?;
        text.push_str(token)?;
        last = kind;
        tokens.skip();
    }
    Ok(text)
}
