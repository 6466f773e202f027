//! Which texts are names.

ghost use Rattle.std.specs.Prelude.{◌≡◌, MatchResult, chars};
ghost use Rattle.std.specs.Bool.{Decides};
ghost use Rattle.wgsl_model.specs.Tokens.Raw.{none_left, raw};
ghost use Rattle.wgsl_model_names.specs.RenamedTokens.{begins_with_underscores};
ghost use Rattle.wgsl_rename.specs.NewName.{IsName, IsNoName};

use crate::error::Refusal;
use wgsl_lex_scanner::lexeme::Lexeme;
use wgsl_lex_scanner::scan::{Scanned, scan};

/// Returns whether nothing but trivia is in a text.
fn is_blank(text: &str) -> bool
    ensures { Decides result (raw (chars text.now) ≡ none_left) }
{
    matches!(scan(text), Scanned::NoneLeft)
}

/// Returns whether a text begins with two `_`.
fn begins_with_underscores(text: &str) -> bool
    ensures { result ≡ begins_with_underscores text.now }
{
    matches!(text.as_bytes(), [b'_', b'_', ..])
}

/// Returns what is in the way of a text as a name, if something is.
pub(crate) fn check_name(text: &str) -> Result<(), Refusal>
    ensures { MatchResult result (λ _. IsName text.now) (IsNoName text.now) }
{
    let Scanned::Found {
        lexeme,
        from: _,
        after,
    } = scan(text)
    else {
        return Err(Refusal::NoIdentifier);
    };
    if !is_blank(after) {
        return Err(Refusal::NoIdentifier);
    }
    match lexeme {
        Lexeme::Ident(name) if name == text && !begins_with_underscores(text) => Ok(()),
        Lexeme::ReservedWord(_) => Err(Refusal::Reserved),
        Lexeme::Plain(kind) if kind.is_keyword() => Err(Refusal::Keyword),
        _ => Err(Refusal::NoIdentifier),
    }
}
