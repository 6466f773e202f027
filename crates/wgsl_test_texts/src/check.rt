//! What is seen of a row's text, by how it is read.

use crate::depths::{see_deeper, see_depth, see_tidy_depth};
use crate::discovered::see_lists;
use crate::facts::{Facts, MADE};
use crate::faults::see_fault;
use crate::layouts::see_layout;
use crate::literals::see_literal;
use crate::made::see_made;
use crate::minified::see_minified;
use crate::modules::{see_tidied, see_unit};
use crate::names::see_names;
use crate::paths::see_path;
use crate::programs::Call;
use crate::renamed::see_renamed;
use crate::row::{Field, Row};
use crate::shortest::see_shortest;
use crate::snippets::see_snippet;
use crate::streams::see_call;
use crate::tokens::{see_list, see_tokens};
use crate::trees::see_tree;
use std::alloc::{AllocError, Global};
use wgsl_lexer::recognize_template_list;
use wgsl_read_dialect::recognize_str;
use wgsl_read_nesting::nesting;
use wgsl_tree_expression::Expression;
use wgsl_tree_statement::Statement;
use wgsl_tree_unit::{GlobalDeclaration, GlobalDirective};

/// Returns what is wrong with a row; nothing where it holds.
pub fn report_of(alloc: Global, row: &Row<'_>) -> Result<String, AllocError> {
    let mut facts = Facts::new(alloc, row);
    if let Some(read) = row.fields.first() {
        see_field(read, &mut facts)?;
    }
    facts.report()
}

/// What is seen of what the first line of a row says.
fn see_field(read: &Field<'_>, facts: &mut Facts<'_>) -> Result<(), AllocError> {
    let (word, argument) = read.words.split_once(' ').unwrap_or((read.words, ""));
    let arguments = argument.parse::<usize>().unwrap_or(0);
    if let Some(call) = Call::named(word, arguments) {
        return see_call(call, &read.value, facts);
    }
    if word == MADE {
        return see_made(&read.value, facts);
    }
    match std::str::from_utf8(&read.value) {
        Ok(text) => see_text(word, argument, text, facts),
        Err(_) => facts.expect(false, "the text is UTF-8"),
    }
}

/// What is seen of a text that is read as the word says.
fn see_text(
    word: &str,
    argument: &str,
    text: &str,
    facts: &mut Facts<'_>,
) -> Result<(), AllocError> {
    match word {
        "unit" => see_unit(text, facts),
        "directive" => see_tree::<GlobalDirective>(text, facts),
        "declaration" => see_tree::<GlobalDeclaration>(text, facts),
        "statement" => see_tree::<Statement>(text, facts),
        "expression" => see_tree::<Expression>(text, facts),
        "tidy" => see_tidied(text, facts),
        "template" => see_template(text, facts),
        "nesting" => see_nesting(text, facts),
        "literal" => see_literal(text, facts),
        "tokens" => see_tokens(text, facts),
        "list" => see_list(text, facts),
        "discover" => see_lists(text, facts),
        "dialect" => see_dialect(text, facts),
        "path" => see_path(text, facts),
        "parse_within" => see_depth(text, argument, facts),
        "tidy_within" => see_tidy_depth(text, argument, facts),
        "deeper_in_file" => see_deeper(text, argument, facts),
        "tidy_with" => see_layout(text, argument, facts),
        "shorten" => see_shortest(text, facts),
        "minify" => see_minified(text, argument, facts),
        "names" => see_names(text, facts),
        "rename" => see_renamed(text, argument, facts),
        "snippet" => see_snippet(text, argument, facts),
        _ => facts.expect(false, "a row says how its text is read"),
    }
}

/// Whether a text is a module of the dialect.
fn see_dialect(text: &str, facts: &mut Facts<'_>) -> Result<(), AllocError> {
    match recognize_str(facts.alloc, text) {
        Ok(()) => facts.answer("accepted", &""),
        Err(error) => see_fault(error, text, facts),
    }
}

/// Whether a text begins with a template list.
fn see_template(text: &str, facts: &mut Facts<'_>) -> Result<(), AllocError> {
    let is_first = recognize_template_list(facts.alloc, text)?;
    facts.answer("list", if is_first { &"yes" } else { &"no" })
}

/// How deep a text nests.
fn see_nesting(text: &str, facts: &mut Facts<'_>) -> Result<(), AllocError> {
    match nesting(facts.alloc, text) {
        Ok(depth) => facts.answer("depth", &depth),
        Err(_) => Err(AllocError),
    }
}
