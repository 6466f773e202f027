//! The token at the front of a text.

ghost use Rattle.std.specs.Prelude.{◌≡◌, ◌-◌, chars, length};
ghost use Rattle.std.specs.Str.{encode_utf8_all};
ghost use Rattle.wgsl_model.specs.Tokens.Raw.{raw};
ghost use Rattle.wgsl_lex_scanner.specs.Scanning.{scan_at};
ghost use Rattle.wgsl_lex_scanner.specs.View.{scanned_view, IsShorter};

use crate::characters::starts_word;
use crate::lexeme::Lexeme;
use crate::number::number;
use crate::symbol::symbol;
use crate::text::{before, split_first};
use crate::trivia::after_trivia;
use crate::word::{after_word, word};

/// The result of a scan: a token, an invalid one or none, with the text from there and the text
/// after it.
#[derive(Clone, Copy, Debug, PartialEq)]
pub enum Scanned<'s> {
    NoneLeft,
    Invalid {
        from: &'s str,
        after: &'s str,
    },
    Found {
        lexeme: Lexeme<'s>,
        from: &'s str,
        after: &'s str,
    },
}

/// The token at the front of a text that does not begin with trivia.
fn scan_at(text: &str) -> Scanned<'_>
    ensures value { scanned_view result ≡ scan_at (chars text.now) }
    ensures shorter { IsShorter (length text.now) result }
{
    let Some((c, rest)) = split_first(text) else {
        return Scanned::NoneLeft;
    };
    if starts_word(c) {
        let after = after_word(rest);
        return Scanned::Found {
            lexeme: word(before(text, after)),
            from: text,
            after,
        };
    }
    if let Some((number, after)) = number(c, rest) {
        return match number.lexeme(before(text, after)) {
            Some(lexeme) => Scanned::Found {
                lexeme,
                from: text,
                after,
            },
            None => Scanned::Invalid { from: text, after },
        };
    }
    match symbol(c, rest) {
        Some((kind, after)) => Scanned::Found {
            lexeme: Lexeme::Plain(kind),
            from: text,
            after,
        },
        None => Scanned::Invalid {
            from: text,
            after: rest,
        },
    }
}

/// Returns the token at the front of a text, after its trivia.
pub fn scan(text: &str) -> Scanned<'_>
    ensures value { scanned_view result ≡ raw (chars text.now) }
    ensures shorter { IsShorter (length text.now) result }
{
    scan_at(after_trivia(text))
}

/// Returns the place of the rest of a source of a number of bytes.
pub fn place(total: usize, rest: &str) -> usize
    ensures { result ≡ total - length (encode_utf8_all (chars rest.now)) }
{
    total.saturating_sub(rest.len())
}
