//! The exports for C and for Rust, as a static library: each takes numbers and memory of the
//! caller's, and returns what a call of `wgsl_buffers` does. `include/wgsl.h` declares them and says
//! what a caller owes.
#![tactic(auto)]

ghost use Rattle.wgsl_buffers.specs.Calls.{Formats, Tidies, Checks, WritesSnippet, Recognizes, WritesTree, WritesPackedTree, PrintsPacked, WritesTokens, WritesTokensWithComments, WritesLists, FindsList, MeasuresNesting};
ghost use Rattle.wgsl_buffers.specs.Layouts.{layout_of};
ghost use Rattle.wgsl_buffers.specs.declared.deep.TheConstants.{DEPTH};
ghost use Rattle.wgsl_buffers.specs.Minified.{Minifies};

use std::alloc::Global;
use wgsl_buffers::{Answer, Choices, DEPTH, Place, PlacedKind};

/// Writes the canonical text of a module.
#[unsafe(no_mangle)]
pub extern "C" fn wgsl_c_format(
    alloc: Global,
    text: &[u8],
    buffer: &mut [u8],
    answer: &mut Answer,
) -> u32
    ensures { Formats DEPTH text.now buffer.old buffer.new answer.new result }
{
    wgsl_buffers::format(alloc, DEPTH, text, buffer, answer)
}

/// The same as `wgsl_c_format`, of a text that may nest a number of levels deep.
#[unsafe(no_mangle)]
pub extern "C" fn wgsl_c_format_within(
    alloc: Global,
    depth: usize,
    text: &[u8],
    buffer: &mut [u8],
    answer: &mut Answer,
) -> u32
    ensures { Formats depth text.now buffer.old buffer.new answer.new result }
{
    wgsl_buffers::format(alloc, depth, text, buffer, answer)
}

/// Writes the formatted text of a module, with its comments.
#[unsafe(no_mangle)]
pub extern "C" fn wgsl_c_tidy(
    alloc: Global,
    choices: &Choices,
    text: &[u8],
    buffer: &mut [u8],
    answer: &mut Answer,
) -> u32
    ensures { Tidies DEPTH (layout_of choices.now) text.now buffer.old buffer.new answer.new result }
{
    wgsl_buffers::tidy(alloc, DEPTH, choices, text, buffer, answer)
}

/// The same as `wgsl_c_tidy`, of a text that may nest a number of levels deep.
#[unsafe(no_mangle)]
pub extern "C" fn wgsl_c_tidy_within(
    alloc: Global,
    depth: usize,
    choices: &Choices,
    text: &[u8],
    buffer: &mut [u8],
    answer: &mut Answer,
) -> u32
    ensures { Tidies depth (layout_of choices.now) text.now buffer.old buffer.new answer.new result }
{
    wgsl_buffers::tidy(alloc, depth, choices, text, buffer, answer)
}

/// Writes the minified text of a module and, after it, the JSON of its new names: with 0 no name
/// gets a new one, with 1 those that are declared in functions alone, with 2 all, except those on
/// the lines of `keep`.
#[unsafe(no_mangle)]
pub extern "C" fn wgsl_c_minify(
    alloc: Global,
    names: u32,
    keep: &[u8],
    text: &[u8],
    buffer: &mut [u8],
    answer: &mut Answer,
) -> u32
    ensures { Minifies DEPTH names keep.now text.now buffer.old buffer.new answer.new result }
{
    wgsl_buffers::minify(alloc, DEPTH, names, keep, text, buffer, answer)
}

/// The same as `wgsl_c_minify`, of a text that may nest a number of levels deep.
#[unsafe(no_mangle)]
pub extern "C" fn wgsl_c_minify_within(
    alloc: Global,
    depth: usize,
    names: u32,
    keep: &[u8],
    text: &[u8],
    buffer: &mut [u8],
    answer: &mut Answer,
) -> u32
    ensures { Minifies depth names keep.now text.now buffer.old buffer.new answer.new result }
{
    wgsl_buffers::minify(alloc, depth, names, keep, text, buffer, answer)
}

/// Checks whether a text is a module.
#[unsafe(no_mangle)]
pub extern "C" fn wgsl_c_check(
    alloc: Global,
    text: &[u8],
    buffer: &mut [u8],
    answer: &mut Answer,
) -> u32
    ensures { Checks DEPTH text.now buffer.old buffer.new answer.new result }
{
    wgsl_buffers::check(alloc, DEPTH, text, buffer, answer)
}

/// The same as `wgsl_c_check`, of a text that may nest a number of levels deep.
#[unsafe(no_mangle)]
pub extern "C" fn wgsl_c_check_within(
    alloc: Global,
    depth: usize,
    text: &[u8],
    buffer: &mut [u8],
    answer: &mut Answer,
) -> u32
    ensures { Checks depth text.now buffer.old buffer.new answer.new result }
{
    wgsl_buffers::check(alloc, depth, text, buffer, answer)
}

/// Checks whether a text is a module, and if it is not, writes its fault with the line in which it
/// starts, in a file with a name if that is not empty.
#[unsafe(no_mangle)]
pub extern "C" fn wgsl_c_snippet(
    alloc: Global,
    name: &[u8],
    text: &[u8],
    buffer: &mut [u8],
    answer: &mut Answer,
) -> u32
    ensures { WritesSnippet DEPTH name.now text.now buffer.old buffer.new answer.new result }
{
    wgsl_buffers::write_snippet(alloc, DEPTH, name, text, buffer, answer)
}

/// The same as `wgsl_c_snippet`, of a text that may nest a number of levels deep.
#[unsafe(no_mangle)]
pub extern "C" fn wgsl_c_snippet_within(
    alloc: Global,
    depth: usize,
    name: &[u8],
    text: &[u8],
    buffer: &mut [u8],
    answer: &mut Answer,
) -> u32
    ensures { WritesSnippet depth name.now text.now buffer.old buffer.new answer.new result }
{
    wgsl_buffers::write_snippet(alloc, depth, name, text, buffer, answer)
}

/// Checks whether a text is a module of the dialect.
#[unsafe(no_mangle)]
pub extern "C" fn wgsl_c_recognize(
    alloc: Global,
    text: &[u8],
    buffer: &mut [u8],
    answer: &mut Answer,
) -> u32
    ensures { Recognizes DEPTH text.now buffer.old buffer.new answer.new result }
{
    wgsl_buffers::recognize(alloc, DEPTH, text, buffer, answer)
}

/// The same as `wgsl_c_recognize`, of a text that may nest a number of levels deep.
#[unsafe(no_mangle)]
pub extern "C" fn wgsl_c_recognize_within(
    alloc: Global,
    depth: usize,
    text: &[u8],
    buffer: &mut [u8],
    answer: &mut Answer,
) -> u32
    ensures { Recognizes depth text.now buffer.old buffer.new answer.new result }
{
    wgsl_buffers::recognize(alloc, depth, text, buffer, answer)
}

/// Writes the tree that a text is, as JSON: 0 asks for a module, 1 for a directive, 2 for a
/// declaration, 3 for a statement, 4 for an expression.
#[unsafe(no_mangle)]
pub extern "C" fn wgsl_c_tree(
    alloc: Global,
    what: u32,
    text: &[u8],
    buffer: &mut [u8],
    answer: &mut Answer,
) -> u32
    ensures { WritesTree DEPTH what text.now buffer.old buffer.new answer.new result }
{
    wgsl_buffers::write_tree(alloc, DEPTH, what, text, buffer, answer)
}

/// The same as `wgsl_c_tree`, of a text that may nest a number of levels deep.
#[unsafe(no_mangle)]
pub extern "C" fn wgsl_c_tree_within(
    alloc: Global,
    depth: usize,
    what: u32,
    text: &[u8],
    buffer: &mut [u8],
    answer: &mut Answer,
) -> u32
    ensures { WritesTree depth what text.now buffer.old buffer.new answer.new result }
{
    wgsl_buffers::write_tree(alloc, depth, what, text, buffer, answer)
}

/// Writes the tree that a text is, by its packed form: 0 asks for a module, 1 for a directive, 2
/// for a declaration, 3 for a statement, 4 for an expression.
#[unsafe(no_mangle)]
pub extern "C" fn wgsl_c_packed_tree(
    alloc: Global,
    what: u32,
    text: &[u8],
    buffer: &mut [u8],
    answer: &mut Answer,
) -> u32
    ensures { WritesPackedTree DEPTH what text.now buffer.old buffer.new answer.new result }
{
    wgsl_buffers::write_packed_tree(alloc, DEPTH, what, text, buffer, answer)
}

/// The same as `wgsl_c_packed_tree`, of a text that may nest a number of levels deep.
#[unsafe(no_mangle)]
pub extern "C" fn wgsl_c_packed_tree_within(
    alloc: Global,
    depth: usize,
    what: u32,
    text: &[u8],
    buffer: &mut [u8],
    answer: &mut Answer,
) -> u32
    ensures { WritesPackedTree depth what text.now buffer.old buffer.new answer.new result }
{
    wgsl_buffers::write_packed_tree(alloc, depth, what, text, buffer, answer)
}

/// Writes the printed text of the node that has a packed form.
#[unsafe(no_mangle)]
pub extern "C" fn wgsl_c_print(
    alloc: Global,
    form: &[u8],
    buffer: &mut [u8],
    answer: &mut Answer,
) -> u32
    ensures { PrintsPacked form.now buffer.old buffer.new answer.new result }
{
    wgsl_buffers::print(alloc, form, buffer, answer)
}

/// Writes the tokens of a text, as many as fit.
#[unsafe(no_mangle)]
pub extern "C" fn wgsl_c_tokens(
    alloc: Global,
    text: &[u8],
    buffer: &mut [PlacedKind],
    answer: &mut Answer,
) -> u32
    ensures { WritesTokens text.now buffer.new answer.new result }
{
    wgsl_buffers::write_tokens(alloc, text, buffer, answer)
}

/// Writes the tokens of a text and the comments between them, as many as fit.
#[unsafe(no_mangle)]
pub extern "C" fn wgsl_c_tokens_with_comments(
    alloc: Global,
    text: &[u8],
    buffer: &mut [PlacedKind],
    answer: &mut Answer,
) -> u32
    ensures { WritesTokensWithComments text.now buffer.new answer.new result }
{
    wgsl_buffers::write_tokens_with_comments(alloc, text, buffer, answer)
}

/// Writes the places of the template lists of a text, as many as fit.
#[unsafe(no_mangle)]
pub extern "C" fn wgsl_c_lists(
    alloc: Global,
    text: &[u8],
    buffer: &mut [Place],
    answer: &mut Answer,
) -> u32
    ensures { WritesLists text.now buffer.new answer.new result }
{
    wgsl_buffers::write_lists(alloc, text, buffer, answer)
}

/// Reports whether a text begins with a template list, after blank space and comments.
#[unsafe(no_mangle)]
pub extern "C" fn wgsl_c_begins_with_list(alloc: Global, text: &[u8], answer: &mut Answer) -> u32
    ensures { FindsList text.now answer.new result }
{
    wgsl_buffers::begins_with_list(alloc, text, answer)
}

/// Reports the greatest number of brackets, blocks, template lists and prefix operators that are
/// open at one place.
#[unsafe(no_mangle)]
pub extern "C" fn wgsl_c_nesting(alloc: Global, text: &[u8], answer: &mut Answer) -> u32
    ensures { MeasuresNesting text.now answer.new result }
{
    wgsl_buffers::measure_nesting(alloc, text, answer)
}
