//! What ends the tokens of a text.

ghost use Rattle.std.specs.Prelude.{◌≡◌, List, chars};
ghost use Rattle.grammar.specs.Tokens.{Token, last_end};
ghost use Rattle.grammar.specs.Endings.{Ending};
ghost use Rattle.wgsl_model.specs.Tokens.Raw.{raw};
ghost use Rattle.wgsl_model.specs.Tokens.TokenList.{IsTokenList};
ghost use Rattle.wgsl_lexer.specs.Endings.{IsInvalidAt, ending_with};

use wgsl_lex_scanner::scan::{Scanned, place, scan};
use wgsl_span::Span;

/// The invalid token at the front of the end of a text of a number of bytes, if one is there.
fn invalid_at(total: usize, text: &str) -> Option<Span>
    ensures { IsInvalidAt total (raw (chars text.now)) result }
{
    match scan(text) {
        Scanned::Invalid { from, after } => Some(Span {
            start: place(total, from),
            end: place(total, after),
        }),
        Scanned::NoneLeft | Scanned::Found { .. } => None,
    }
}

/// Returns the invalid token that ends the tokens of a text, the last of which ends at a place.
pub fn invalid_after(source: &str, place: usize) -> Option<Span>
    ensures { (ts : List Token) (e : Ending) →
        IsTokenList (chars source.now) ts e → place ≡ last_end 0 ts → e ≡ ending_with result }
{
    match source.get(place..) {
        Some(text) => invalid_at(source.len(), text),
        None => None,
    }
}
