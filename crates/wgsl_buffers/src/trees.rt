//! Trees as JSON.

ghost use Rattle.std.specs.Prelude.{◌≤◌, ◌<◌, ℕ, List, MatchOption, IfOk};
ghost use Rattle.wgsl_model_packed.specs.Printing.{json};
ghost use Rattle.wgsl_buffers.specs.Trees.{tree_of, IsOnlyPrint, IsPackedTree, IsReadTree, Tree};
ghost use Rattle.wgsl_buffers.specs.Calls.{WritesTree};

use crate::answer::{Answer, NOT_UTF8, UNKNOWN, tell_bytes, text_of};
use crate::fault::tell_error;
use crate::packed::packed_tree;
use std::alloc::{AllocError, Global};
use wgsl_error::Error;
use wgsl_print_packed::{Notation, print_packed};

/// Returns the JSON of a form that has one, unless an allocation fails.
fn json_of(alloc: Global, form: &[u8]) -> Result<Vec<u8>, AllocError>
    ensures { IfOk result (λ text. IsOnlyPrint json form.now text.items) }
{
    match print_packed(alloc, Notation::Json, form) {
        Ok(text) => Ok(text),
        Err(_) => Err(AllocError),
    }
}

/// Returns the JSON of the tree whose packed form was made of a text.
fn read_json(alloc: Global, read: Result<Vec<u8>, Error>) -> Result<Vec<u8>, Error>
    ensures { (tree : Tree) (source : List ℕ) → IsPackedTree tree source read →
        IsReadTree tree source result }
{
    let form = read?;
    Ok(json_of(alloc, &form)?)
}

/// Returns the JSON of the tree that has a number, if one has, of a text that may nest a number of
/// levels deep.
fn json_tree(alloc: Global, depth: usize, what: u32, source: &str) -> Option<Result<Vec<u8>, Error>>
    ensures { MatchOption result (4 < what) (λ read.
        (what ≤ 4) × IsReadTree (tree_of what) source.now read) }
{
    match packed_tree(alloc, depth, what, source) {
        None => None,
        Some(read) => Some(read_json(alloc, read)),
    }
}

/// Writes the tree that a text is, as JSON: 0 asks for a module, 1 for a directive, 2 for a
/// declaration, 3 for a statement, 4 for an expression.
pub fn write_tree(
    alloc: Global,
    depth: usize,
    what: u32,
    text: &[u8],
    buffer: &mut [u8],
    answer: &mut Answer,
) -> u32
    ensures { WritesTree depth what text.now buffer.old buffer.new answer.new result }
{
    let Some(source) = text_of(text, answer) else {
        return NOT_UTF8;
    };
    match json_tree(alloc, depth, what, source) {
        None => {
            *answer = Answer::of_size(0);
            UNKNOWN
        }
        Some(Ok(json)) => tell_bytes(&json, buffer, answer),
        Some(Err(error)) => tell_error(alloc, source, depth, error, buffer, answer),
    }
}
