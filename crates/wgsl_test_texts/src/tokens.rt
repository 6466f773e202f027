//! The tokens of a text, from a lexer and from copies of it, and whether they are a list of
//! expressions.

use crate::facts::Facts;
use std::alloc::{AllocError, Global};
use wgsl_error::ErrorKind;
use wgsl_lex_templates::{OpenBrackets, is_expression_list};
use wgsl_lexer::{Lexer, TokenItem};

/// A token with its place, or the fault that ends the tokens, on a line.
fn line_of(alloc: Global, item: TokenItem) -> Result<String, AllocError> {
    match item {
        Ok((start, token, end)) => format!(in alloc; "{start}..{end} {token}\n"),
        Err((start, error, end)) => {
            format!(in alloc; "{start}..{end} {}\n", ErrorKind::from(error))
        }
    }
}

/// What a lexer gives, each item on a line of its own.
fn lines_of(alloc: Global, lexer: Lexer<'_>) -> Result<String, AllocError> {
    let mut lines = String::new(alloc);
    for item in lexer {
        lines.push_str(&line_of(alloc, item)?)?;
    }
    Ok(lines)
}

/// Sees the tokens of a text; copies of a lexer give what is left, and nothing follows the end.
pub fn see_tokens(text: &str, facts: &mut Facts<'_>) -> Result<(), AllocError> {
    let alloc = facts.alloc;
    let mut lexer = Lexer::new(alloc, text)?;
    let whole = lines_of(alloc, lexer.clone(alloc)?)?;
    let mut given = String::new(alloc);
    for _ in 0..text.len() {
        let left = lines_of(alloc, lexer.clone(alloc)?)?;
        let is_left = whole.strip_prefix(given.as_str()) == Some(left.as_str());
        facts.expect(is_left, "a copy gives what is left")?;
        let Some(item) = lexer.next() else {
            break;
        };
        given.push_str(&line_of(alloc, item)?)?;
    }
    let is_over = lexer.next().is_none() && lexer.next().is_none();
    facts.expect(is_over, "nothing follows the end")?;
    facts.answer("items", &whole.trim_end())
}

/// Sees whether the tokens of a text are a list of expressions.
pub fn see_list(text: &str, facts: &mut Facts<'_>) -> Result<(), AllocError> {
    let alloc = facts.alloc;
    let mut kinds = Vec::new(alloc);
    for item in Lexer::new(alloc, text)? {
        match item {
            Ok((_, token, _)) => kinds.push(token.kind())?,
            Err(_) => return facts.expect(false, "the text has tokens"),
        }
    }
    let word = if is_expression_list(&kinds, &mut OpenBrackets::new(alloc))? {
        "yes"
    } else {
        "no"
    };
    facts.answer("list", &word)
}
