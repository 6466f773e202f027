//! Short names that serve as new ones.

ghost use Rattle.std.specs.Prelude.{◌≡◌, ◌≢◌, ◌<◌, ◌-◌, ◌++◌, true, false, List, ℕ, [], chars, string_bytes, IfOk, OnOk, MatchOption};
ghost use Rattle.std.specs.Bool.{Decides};
ghost use Rattle.wgsl_model.specs.Tokens.ClassTable.{Ident};
ghost use Rattle.wgsl_model.specs.Tokens.Kind.{named};
ghost use Rattle.wgsl_model.specs.Tokens.Raw.{none_left, raw, token};
ghost use Rattle.wgsl_model_minify.specs.Chosen.{is_letter};
ghost use Rattle.wgsl_minify_names.specs.Short.{digit_of, AreTaken, IsFresh, IsShort, IsWhole};
ghost use Rattle.wgsl_minify_names.specs.InScope.{is_in};
ghost use Rattle.wgsl_minify_names.specs.View.{texts};

use crate::set::has;
use indexmap::IndexSet;
use std::alloc::{AllocError, Global};
use wgsl_lex_scanner::lexeme::Lexeme;
use wgsl_lex_scanner::scan::{Scanned, scan};

/// Returns the letter of a digit: the small letters come before the capital ones.
fn letter(digit: u8) -> char
    requires { digit < 52 }
    ensures is_letter { is_letter result ≡ true }
    ensures digit { digit_of result ≡ digit }
{
    if digit < 26 {
        char::from(b'a' + digit)
    } else {
        char::from(b'A' + (digit - 26))
    }
}

/// Writes the short name of a number after a text: the names of one letter have the numbers from 1
/// on, and those of two letters follow them. The number 0 has no letters.
fn push_short_name(text: &mut String, number: usize) -> Result<(), AllocError>
    ensures { OnOk result ((name : List ℕ) × (string_bytes text.new ≡ string_bytes text.old ++ name)
        × IsShort number name) }
{
    if number == 0 {
        return Ok(());
    }
    text.push(letter(((number - 1) % 52) as u8))?;
    push_short_name(text, (number - 1) / 52)
}

/// Returns the identifier at the front of a text, after its trivia, with the text after it.
fn first_name(text: &str) -> Option<(&str, &str)>
    ensures { MatchOption result
        ((name from after : List ℕ) → name ≢ [] → raw (chars text.now) ≢ token (named Ident name) from after)
        (λ found. (from : List ℕ) × (raw (chars text.now) ≡ token (named Ident found.0.now) from (chars found.1.now))) }
{
    match scan(text) {
        Scanned::Found {
            lexeme: Lexeme::Ident(name),
            from: _,
            after,
        } => Some((name, after)),
        _ => None,
    }
}

/// Returns whether nothing but trivia is in a text.
fn is_blank(text: &str) -> bool
    ensures { Decides result (raw (chars text.now) ≡ none_left) }
{
    matches!(scan(text), Scanned::NoneLeft)
}

/// Returns whether a text is an identifier.
fn is_identifier(text: &str) -> bool
    ensures { Decides result (IsWhole text.now) }
{
    let Some((name, after)) = first_name(text) else {
        return false;
    };
    name == text && is_blank(after)
}

/// Returns whether a name is an identifier that is not in a set.
fn is_free(name: &str, taken: &IndexSet<&str>) -> bool
    ensures { Decides result (IsWhole name.now × (is_in name.now (texts taken.now.keys) ≡ false)) }
{
    is_identifier(name) && !has(taken, name)
}

/// Returns the first short name after that of a number that is an identifier and is not in a set,
/// with its number. Where the numbers of a `usize` end first, the error is that of a failed
/// allocation.
pub fn next_short_name(
    alloc: Global,
    number: usize,
    taken: &IndexSet<&str>,
) -> Result<(usize, String), AllocError>
    ensures later { IfOk result (λ next. number < next.0) }
    ensures short { IfOk result (λ next. IsShort next.0 (string_bytes next.1)) }
    ensures fresh { IfOk result (λ next. IsFresh (texts taken.now.keys) (string_bytes next.1)) }
    ensures skipped { IfOk result (λ next. AreTaken (texts taken.now.keys) number (next.0 - 1)) }
{
    for next in number..usize::MAX {
        let mut name = String::new(alloc);
        push_short_name(&mut name, next + 1)?;
        if is_free(&name, taken) {
            return Ok((next + 1, name));
        }
    }
    Err(AllocError)
}
