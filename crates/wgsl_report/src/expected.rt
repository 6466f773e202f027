//! What was expected, in words.

ghost use Rattle.std.specs.Prelude.{◌≡◌, map, string_bytes, IfOk, OnOk, ◌++◌};
ghost use Rattle.std.specs.List.{filter, list_any};
ghost use Rattle.wgsl_model.specs.Faults.Kinds.{quoted};
ghost use Rattle.wgsl_report.specs.Faults as plain;

use std::alloc::{AllocError, Global};

/// How many words are reported at most.
const MOST: usize = 4;

/// What was expected, in words; nothing, if that is not known.
pub(crate) fn expected_words(alloc: Global, expected: &[String]) -> Result<String, AllocError>
    ensures { IfOk result (λ text. string_bytes text
        ≡ plain.expected_words (map string_bytes expected.now)) }
{
    let words = words_of(alloc, expected)?;
    if words.is_empty() {
        return Ok(String::new(alloc));
    }
    if words.len() <= MOST {
        let all = words.join(alloc, ", ")?;
        return format!(in alloc; ", expected {all}");
    }
    let first = words[..MOST].join(alloc, ", ")?;
    format!(in alloc; ", expected {first}, ..")
}

/// Classes of tokens, and then tokens between backquotes.
fn words_of(alloc: Global, expected: &[String]) -> Result<Vec<String>, AllocError>
    ensures { IfOk result (λ words. map string_bytes words.items
        ≡ plain.words_of (map string_bytes expected.now)) }
{
    let mut words = literal_words(alloc, expected)?;
    push_classes(alloc, expected, &mut words)?;
    push_spellings(alloc, expected, &mut words)?;
    Ok(words)
}

/// The word for literals, if there are any.
fn literal_words(alloc: Global, expected: &[String]) -> Result<Vec<String>, AllocError>
    ensures { IfOk result (λ words. map string_bytes words.items ≡ plain.literal_if
        (list_any (λ text. plain.is_literal (string_bytes text)) expected.now)) }
{
    let mut words = Vec::new(alloc);
    if !has_literal(expected) {
        return Ok(words);
    }
    words.push(String::from_str(alloc, "literal")?)?;
    Ok(words)
}

/// Whether one is the name of a class of literals.
fn has_literal(expected: &[String]) -> bool
    ensures { result ≡ list_any (λ text. plain.is_literal (string_bytes text)) expected.now }
{
    expected.iter().any(|text| is_literal(text.as_str()))
}

/// Adds the classes but literals.
fn push_classes(
    alloc: Global,
    expected: &[String],
    words: &mut Vec<String>,
) -> Result<(), AllocError>
    ensures { OnOk result (map string_bytes words.new.items ≡ map string_bytes words.old.items
        ++ filter plain.is_other_class (map string_bytes expected.now)) }
{
    for text in expected {
        if is_other_class(text.as_str()) {
            words.push(String::from_str(alloc, text.as_str())?)?;
        }
    }
    Ok(())
}

/// Adds the tokens.
fn push_spellings(
    alloc: Global,
    expected: &[String],
    words: &mut Vec<String>,
) -> Result<(), AllocError>
    ensures { OnOk result (map string_bytes words.new.items ≡ map string_bytes words.old.items
        ++ map quoted (filter plain.is_spelling (map string_bytes expected.now))) }
{
    for text in expected {
        if !is_class(text.as_str()) {
            words.push(format!(in alloc; "`{text}`")?)?;
        }
    }
    Ok(())
}

/// Whether it is the name of a class of literals.
fn is_literal(text: &str) -> bool
    ensures { result ≡ plain.is_literal text.now }
{
    text.as_bytes().ends_with(b" literal")
}

/// Whether it is the name of a class of tokens, or of the end.
fn is_class(text: &str) -> bool
    ensures { result ≡ plain.is_class text.now }
{
    text == "identifier" || has_space(text)
}

/// Whether it has a space.
fn has_space(text: &str) -> bool
    ensures { result ≡ plain.has_space text.now }
{
    text.as_bytes().iter().any(|c| *c == b' ')
}

/// Whether it is the name of another class than one of literals.
fn is_other_class(text: &str) -> bool
    ensures { result ≡ plain.is_other_class text.now }
{
    is_class(text) && !is_literal(text)
}
