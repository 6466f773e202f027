//! Parts of a text.

ghost use Rattle.std.specs.Prelude.{◌≡◌, ◌<◌, ◌≤◌, chars, drop, length};

/// Returns the text after its first character.
pub fn after_first(text: &str) -> &str
    ensures value { chars result.now ≡ drop 1 (chars text.now) }
    ensures within { length result.now ≤ length text.now }
    ensures shorter { 0 < length text.now → length result.now < length text.now }
{
    let mut rest = text.chars();
    match rest.next() {
        Some(_) => rest.as_str(),
        None => text,
    }
}
