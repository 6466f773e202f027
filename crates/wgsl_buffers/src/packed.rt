//! Trees by their packed form, and nodes printed from it.

ghost use Rattle.std.specs.Prelude.{◌≤◌, ◌<◌, MatchOption};
ghost use Rattle.wgsl_buffers.specs.Trees.{declaration_tree, directive_tree, expression_tree, module_tree, statement_tree, tree_of, IsPackedTree};
ghost use Rattle.wgsl_buffers.specs.Calls.{PrintsPacked, WritesPackedTree};

use crate::answer::{Answer, NOT_UTF8, UNKNOWN, refuse_memory, tell_bytes, text_of};
use crate::deep::{bound, rules_for};
use crate::fault::{refuse_packed, tell_error};
use std::alloc::Global;
use wgsl_error::Error;
use wgsl_parser::{FromSource, parse_within};
use wgsl_print_packed::{Notation, PackedError, print_packed};
use wgsl_tree_expression::Expression;
use wgsl_tree_packed::{packed_form, packed_module};
use wgsl_tree_statement::Statement;
use wgsl_tree_unit::{GlobalDeclaration, GlobalDirective};

/// How many bytes a packed form has at most for a byte of a usual text.
const USUAL: usize = 4;

/// How many bytes are allocated for the packed form of a text at first.
fn capacity(source: &str) -> usize {
    source.len().saturating_mul(USUAL)
}

/// The packed form of the module that a text is, which may nest a number of levels deep.
fn packed_unit(alloc: Global, source: &str, depth: usize) -> Result<Vec<u8>, Error>
    ensures { IsPackedTree module_tree source.now result }
{
    let unit = parse_within(alloc, source, rules_for(depth))?;
    Ok(packed_module(alloc, unit, capacity(source))?)
}

fn packed_directive(alloc: Global, source: &str, depth: usize) -> Result<Vec<u8>, Error>
    ensures { IsPackedTree directive_tree source.now result }
{
    bound(alloc, source, depth)?;
    let directive = GlobalDirective::from_str(alloc, source)?;
    Ok(packed_form(alloc, &directive, capacity(source))?)
}

fn packed_declaration(alloc: Global, source: &str, depth: usize) -> Result<Vec<u8>, Error>
    ensures { IsPackedTree declaration_tree source.now result }
{
    bound(alloc, source, depth)?;
    let declaration = GlobalDeclaration::from_str(alloc, source)?;
    Ok(packed_form(alloc, &declaration, capacity(source))?)
}

fn packed_statement(alloc: Global, source: &str, depth: usize) -> Result<Vec<u8>, Error>
    ensures { IsPackedTree statement_tree source.now result }
{
    bound(alloc, source, depth)?;
    let statement = Statement::from_str(alloc, source)?;
    Ok(packed_form(alloc, &statement, capacity(source))?)
}

fn packed_expression(alloc: Global, source: &str, depth: usize) -> Result<Vec<u8>, Error>
    ensures { IsPackedTree expression_tree source.now result }
{
    bound(alloc, source, depth)?;
    let expression = Expression::from_str(alloc, source)?;
    Ok(packed_form(alloc, &expression, capacity(source))?)
}

/// The packed form of the tree that has a number, if one has, of a text that may nest a number of
/// levels deep.
pub(crate) fn packed_tree(
    alloc: Global,
    depth: usize,
    what: u32,
    source: &str,
) -> Option<Result<Vec<u8>, Error>>
    ensures { MatchOption result (4 < what) (λ read.
        (what ≤ 4) × IsPackedTree (tree_of what) source.now read) }
{
    match what {
        0 => Some(packed_unit(alloc, source, depth)),
        1 => Some(packed_directive(alloc, source, depth)),
        2 => Some(packed_declaration(alloc, source, depth)),
        3 => Some(packed_statement(alloc, source, depth)),
        4 => Some(packed_expression(alloc, source, depth)),
        _ => None,
    }
}

/// Writes the tree that a text is, by its packed form: 0 asks for a module, 1 for a directive, 2
/// for a declaration, 3 for a statement, 4 for an expression.
pub fn write_packed_tree(
    alloc: Global,
    depth: usize,
    what: u32,
    text: &[u8],
    buffer: &mut [u8],
    answer: &mut Answer,
) -> u32
    ensures { WritesPackedTree depth what text.now buffer.old buffer.new answer.new result }
{
    let Some(source) = text_of(text, answer) else {
        return NOT_UTF8;
    };
    match packed_tree(alloc, depth, what, source) {
        None => {
            *answer = Answer::of_size(0);
            UNKNOWN
        }
        Some(Ok(form)) => tell_bytes(&form, buffer, answer),
        Some(Err(error)) => tell_error(alloc, source, depth, error, buffer, answer),
    }
}

/// Writes the printed text of the node that has a packed form.
pub fn print(alloc: Global, form: &[u8], buffer: &mut [u8], answer: &mut Answer) -> u32
    ensures { PrintsPacked form.now buffer.old buffer.new answer.new result }
{
    match print_packed(alloc, Notation::Wgsl, form) {
        Ok(text) => tell_bytes(&text, buffer, answer),
        Err(PackedError::OutOfMemory) => refuse_memory(answer),
        Err(PackedError::NotPacked) => refuse_packed(answer),
    }
}
