//! What happens to names in a text.

ghost use Rattle.std.specs.Prelude.{◌≡◌, ◌⊎◌, true, chars, length, map, IfOk, IfErr};
ghost use Rattle.grammar.specs.Tokens.{Payload};
ghost use Rattle.wgsl_error.specs.View.{fault_view};
ghost use Rattle.wgsl_lex_token.specs.View.{class_of_kind, payload_of};
ghost use Rattle.wgsl_lexer.specs.TextTokens.{tokens_left, ending_left, StartWithKind, BeginAt};
ghost use Rattle.wgsl_model_places.specs.Signs as signs;
ghost use Rattle.wgsl_model_places.specs.Steps as plain;
ghost use Rattle.wgsl_model_tidy.specs.Syntax.{IsSyntaxFaultOf};
ghost use Rattle.wgsl_read_cursor.specs.Answers.{IsOutOfMemory};
ghost use Rattle.wgsl_read_cursor.specs.Places.{StandsWithin};
ghost use Rattle.wgsl_read_names.specs.Texts.{AreEventsOf, TakesName};
ghost use Rattle.wgsl_lex_names.specs.View.{event_view};

use std::alloc::{AllocError, Global};
use wgsl_error::Error;
use wgsl_lex_names::{Event, Name, Reader, has_text};
use wgsl_lex_token::kind::TokenKind;
use wgsl_lex_token::token::Token;
use wgsl_lexer::TextTokens;
use wgsl_read_dialect::check_syntax;
use wgsl_span::Span;

/// Returns whether a token is a name or a reserved word of this text.
fn holds(token: &Token, text: &str) -> bool
    ensures { result ≡ true → payload_of token.now ≡ Payload.name text.now }
{
    match token {
        Token::Ident(held) | Token::ReservedWord(held) => held.as_str() == text,
        _ => false,
    }
}

/// Takes the next token, and returns the text that it holds, which is in the source there.
fn take_held<'s>(
    source: &'s str,
    tokens: &mut TextTokens<'s>,
    kind: TokenKind,
    span: Span,
) -> Result<Name<'s>, AllocError>
    requires kind { StartWithKind (tokens_left tokens.old) kind }
    requires span { BeginAt (tokens_left tokens.old) span }
    requires held { signs.has_text (class_of_kind kind) ≡ true }
    ensures { IfOk result (λ name. TakesName (tokens_left tokens.old) name (tokens_left tokens.new)) }
{
    let Some(text) = source.get(span.start..span.end) else {
        return Err(AllocError);
    };
    let Some(taken) = tokens.take()? else {
        return Err(AllocError);
    };
    if holds(&taken.token, text) {
        return Ok(Name { text, span });
    }
    Err(AllocError)
}

/// Takes the next token, and returns its name, or its word.
fn take_name<'s>(
    source: &'s str,
    tokens: &mut TextTokens<'s>,
    kind: TokenKind,
    span: Span,
) -> Result<Name<'s>, AllocError>
    requires kind { StartWithKind (tokens_left tokens.old) kind }
    requires span { BeginAt (tokens_left tokens.old) span }
    ensures { IfOk result (λ name. TakesName (tokens_left tokens.old) name (tokens_left tokens.new)) }
{
    if let Some(text) = tokens.name() {
        tokens.skip();
        return Ok(Name { text, span });
    }
    if has_text(kind) {
        return take_held(source, tokens, kind, span);
    }
    tokens.skip();
    Ok(Name {
        text: kind.text(),
        span,
    })
}

/// Reads the tokens of a text.
fn read<'s>(
    alloc: Global,
    source: &'s str,
    tokens: TextTokens<'s>,
) -> Result<Vec<Event<'s>>, AllocError>
    ensures { IfOk result (λ found.
        map event_view found.items ≡ plain.events (tokens_left tokens.entry)) }
{
    let mut tokens = tokens;
    let mut reader = Reader::new(alloc);
    'tokens: while let (Some(kind), Some(span)) = (tokens.kind(), tokens.span()) {
        if reader.takes_name(kind) {
            let name = take_name(source, &mut tokens, kind, span)?;
            reader.pass_name(name)?;
        } else {
            tokens.skip();
            reader.pass(kind, tokens.kind())?;
        }
    }
    Ok(reader.into_events())
}

/// Returns what happens to names in a text that has the syntax of a module, in the order of its
/// tokens. Names are not checked, as in `check_syntax`, whose errors are those.
pub fn events<'s>(alloc: Global, source: &'s str) -> Result<Vec<Event<'s>>, Error>
    ensures accepted { IfOk result (λ found.
        AreEventsOf (chars source.now) (map event_view found.items)) }
    ensures refused { IfErr result (λ e.
        IsOutOfMemory e ⊎ IsSyntaxFaultOf (chars source.now) (fault_view e)) }
    ensures placed { IfErr result (λ e. StandsWithin e.span (length source.now)) }
{
    events_within(alloc, source, usize::MAX)
}

/// Returns what `events` does, on a stack that grows with a depth: where brackets, blocks and
/// template lists nest deeper than a number of levels, the error is of the kind `OutOfMemory`. They
/// are counted by the rules of the grammar, so a few more levels may be accepted.
pub fn events_within<'s>(
    alloc: Global,
    source: &'s str,
    depth: usize,
) -> Result<Vec<Event<'s>>, Error>
    ensures accepted { IfOk result (λ found.
        AreEventsOf (chars source.now) (map event_view found.items)) }
    ensures refused { IfErr result (λ e.
        IsOutOfMemory e ⊎ IsSyntaxFaultOf (chars source.now) (fault_view e)) }
    ensures placed { IfErr result (λ e. StandsWithin e.span (length source.now)) }
{
    let tokens = TextTokens::new(alloc, source)?;
    check_syntax(alloc, source, tokens.clone(alloc)?, depth)?;
    let found = read(alloc, source, tokens)?;
    Ok(found)
}
