//! The minified text of a printed module, from its tokens.

ghost use Rattle.std.specs.Prelude.{◌≡◌, ◌++◌, chars, string_bytes, if◌then◌else◌, List, IfOk};
ghost use Rattle.grammar.specs.Endings.{Ending};
ghost use Rattle.wgsl_model.specs.Program.{IsUnit};
ghost use Rattle.wgsl_model.specs.Tokens.TokenList.{IsTokenList};
ghost use Rattle.wgsl_model.specs.Trees.Units.{TranslationUnit};
ghost use Rattle.wgsl_model_tidy.specs.Pieces.{Piece};
ghost use Rattle.wgsl_lex_token.specs.View.{class_of_kind};
ghost use Rattle.wgsl_lexer.specs.TextTokens.{tokens_left, ending_left};
ghost use Rattle.wgsl_model_short.specs.Respelled as model;
ghost use Rattle.wgsl_model_short.specs.Shortest.{gap, joined};
ghost use Rattle.wgsl_format_short.specs.Spelled.{two_classes};

use crate::numbers::{spelled, take_token};
use crate::spaces::gap;
use std::alloc::{AllocError, Global};
use wgsl_lex_token::kind::TokenKind;
use wgsl_lexer::TextTokens;

/// Returns the shortest text of a printed module: its tokens, but for whole numbers, which are in
/// hexadecimal if that is shorter, and for `case` before a `default` that is alone in its clause.
pub fn minify_print(alloc: Global, printed: &str) -> Result<String, AllocError>
    requires { (u : TranslationUnit) × IsUnit (chars printed.now) u }
    ensures { IfOk result (λ text.
        model.IsMinifiedText (chars printed.now) (chars (string_bytes text))) }
{
    let tokens = TextTokens::new(alloc, printed)?;
    Ok(minified(alloc, printed, tokens)?)
}

/// The text of these tokens of a source.
fn minified(alloc: Global, source: &str, tokens: TextTokens) -> Result<String, AllocError>
    requires { IsTokenList (chars source.now) (tokens_left tokens) (ending_left tokens) }
    ensures { IfOk result (λ text. chars (string_bytes text)
        ≡ model.minified (chars source.now) (tokens_left tokens.entry)) }
{
    let mut tokens = tokens;
    let mut next = tokens.clone(alloc)?;
    next.skip();
    let mut after = next.clone(alloc)?;
    after.skip();
    let mut text = String::with_capacity(alloc, source.len())?;
    let mut before = TokenKind::SymSemicolon;
    let mut last = TokenKind::SymSemicolon;
    'tokens: while let (Some(kind), Some(span)) = (tokens.kind(), tokens.span()) {
        let token = &source[span.start..span.end];
        let needless = is_needless(before, kind, next.kind(), after.kind());
        let other = take_token(alloc, &mut tokens, token)?;
        last = push_token(&mut text, last, kind, needless, spelled(&other, token))?;
        before = kind;
        next.skip();
        after.skip();
    }
    Ok(text)
}

/// Whether a token is the `case` before a `default` that is alone, by the tokens beside it.
fn is_needless(
    before: TokenKind,
    kind: TokenKind,
    next: Option<TokenKind>,
    after: Option<TokenKind>,
) -> bool
    ensures { result ≡ model.is_needless (class_of_kind before) (class_of_kind kind)
        (two_classes next after) }
{
    let (Some(next), Some(after)) = (next, after) else {
        return false;
    };
    kind as u8 == TokenKind::KwCase as u8
        && (next as u8 == TokenKind::KwDefault as u8
            && !(before as u8 == TokenKind::SymAttr as u8
                || after as u8 == TokenKind::SymComma as u8))
}

/// Writes a token, if it is not needless, and what is between it and the last one. Returns the kind
/// of the token that is the last one then.
fn push_token(
    text: &mut String,
    last: TokenKind,
    kind: TokenKind,
    needless: bool,
    token: &str,
) -> Result<TokenKind, AllocError>
    ensures { IfOk result (λ now. (ps : List Piece) →
        chars (string_bytes text.new) ++ joined (class_of_kind now) ps
        ≡ chars (string_bytes text.old) ++ (if needless then joined (class_of_kind last) ps
        else gap (class_of_kind last) (chars token.now)
        ++ (chars token.now ++ joined (class_of_kind kind) ps))) }
{
    if needless {
        return Ok(last);
    }
    text.push_str(gap(last, token))?;
    text.push_str(token)?;
    Ok(kind)
}
