//! A text as its characters.

ghost use Rattle.std.specs.Prelude.{◌≡◌, ◌<◌, ◌∷◌, ◌++◌, [], chars, length, MatchOption};
ghost use Rattle.wgsl_model.specs.Tokens.Numbers.{without_last};
ghost use Rattle.wgsl_model.specs.Tokens.Raw.{front};

/// Returns the first character and the text after it. It is decoded only past ASCII.
pub fn split_first(text: &str) -> Option<(char, &str)>
    ensures parts { MatchOption result (chars text.now ≡ []) (λ found.
        chars text.now ≡ found.0 ∷ chars found.1.now) }
    ensures shorter { MatchOption result (length text.now ≡ 0) (λ found.
        length found.1.now < length text.now) }
{
    let byte = *text.as_bytes().first()?;
    if byte.is_ascii() {
        return Some((byte as char, &text[1..]));
    }
    let mut rest = text.chars();
    let first = rest.next()?;
    Some((first, rest.as_str()))
}

/// What is before the rest of a text.
pub(crate) fn before<'s>(text: &'s str, rest: &str) -> &'s str
    requires { chars text.now ≡ front (chars text.now) (chars rest.now) ++ chars rest.now }
    ensures value { chars result.now ≡ front (chars text.now) (chars rest.now) }
{
    &text[..text.len() - rest.len()]
}

/// A text without its last character.
pub(crate) fn without_last(text: &str) -> &str
    ensures { chars result.now ≡ without_last (chars text.now) }
{
    let mut rest = text.chars();
    rest.next_back();
    rest.as_str()
}
