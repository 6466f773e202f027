//! The names to keep, which a module has to have.

ghost use Rattle.std.specs.Prelude.{◌≡◌, true, chars, IfOk, IfErr, OnOk};
ghost use Rattle.std.specs.List.{All, list_any};
ghost use Rattle.wgsl_lex_token.specs.Placed.{placed_view};
ghost use Rattle.wgsl_lexer.specs.TextTokens.{tokens_left};
ghost use Rattle.wgsl_minify_names.specs.View.{texts};
ghost use Rattle.wgsl_minify_files.specs.Failures.{IsRefusal, IsUnknownName, LacksName};
ghost use Rattle.wgsl_minify_files.specs.Kept.{HasName, IsTakenAs, is_name};

use crate::failure::Failure;
use std::alloc::{AllocError, Global};
use wgsl_files::{Refusal, Status};
use wgsl_lex_token::placed::PlacedToken;
use wgsl_lex_token::token::Token;
use wgsl_lexer::TextTokens;

/// Checks that the text of a file of this name has each of some names.
pub fn check_kept(alloc: Global, file: &str, source: &str, keep: &[&str]) -> Result<(), Failure>
    ensures kept { OnOk result (All (HasName true (chars source.now)) (texts keep.now)) }
    ensures lacks { IfErr result
        (IsRefusal (LacksName file.now (texts keep.now) (chars source.now))) }
{
    'keep: for name in keep {
        if !has_name(alloc, source, name)? {
            return Err(unknown_name(alloc, file, name));
        }
    }
    Ok(())
}

/// The failure for a name to keep that a file of this name does not have.
fn unknown_name(alloc: Global, file: &str, name: &str) -> Failure
    ensures { IsRefusal (IsUnknownName file.now name.now) result }
{
    let message = format!(in alloc;
        "{file}: error: option '--keep' takes names of the module, not `{name}`\n"
    );
    match message {
        Ok(message) => Failure::Refused(Refusal {
            status: Status::Usage,
            message,
        }),
        Err(_) => Failure::OutOfMemory,
    }
}

/// Whether a text has this name.
fn has_name(alloc: Global, source: &str, name: &str) -> Result<bool, AllocError>
    ensures { IfOk result (λ has. HasName has (chars source.now) name.now) }
{
    let tokens = TextTokens::new(alloc, source)?;
    any_is(tokens, name)
}

/// Whether one of the tokens that are left is this name.
fn any_is(tokens: TextTokens<'_>, name: &str) -> Result<bool, AllocError>
    ensures { IfOk result (λ has. has ≡ list_any (is_name name.now) (tokens_left tokens.entry)) }
{
    let mut tokens = tokens;
    'tokens: while tokens.kind().is_some() {
        if take_name(&mut tokens, name)? {
            return Ok(true);
        }
    }
    Ok(false)
}

/// Takes the next token, if there is one, and returns whether it is this name.
fn take_name(tokens: &mut TextTokens<'_>, name: &str) -> Result<bool, AllocError>
    ensures { IfOk result (λ is.
        IsTakenAs name.now (tokens_left tokens.old) is (tokens_left tokens.new)) }
{
    match tokens.take()? {
        Some(taken) => Ok(is_name(&taken, name)),
        None => Ok(false),
    }
}

/// Whether a token is this name.
fn is_name(placed: &PlacedToken, name: &str) -> bool
    ensures { result ≡ is_name name.now (placed_view placed.now) }
{
    match &placed.token {
        Token::Ident(text) => text.as_str() == name,
        _ => false,
    }
}
