//! Template lists.

ghost use Rattle.std.specs.Prelude.{◌≡◌, length};
ghost use Rattle.wgsl_buffers.specs.Items.{count_of, HoldItems, start_and_end, lists_before};
ghost use Rattle.wgsl_buffers.specs.Calls.{FindsList, WritesLists};

use crate::answer::{Answer, DONE, NOT_UTF8, TOO_SMALL, refuse_memory, tell_number, text_of};
use std::alloc::Global;
use wgsl_lex_templates::{Templates, discover};
use wgsl_lexer::recognize_template_list;

/// The start and the end of a part of a text.
#[repr(C)]
#[derive(Clone, Copy, Debug, PartialEq, Eq)]
pub struct Place {
    pub start: usize,
    pub end: usize,
}

/// Reports whether a text begins with a template list, after blank space and comments: the answer
/// has size 1 where it does.
pub fn begins_with_list(alloc: Global, text: &[u8], answer: &mut Answer) -> u32
    ensures { FindsList text.now answer.new result }
{
    let Some(source) = text_of(text, answer) else {
        return NOT_UTF8;
    };
    match recognize_template_list(alloc, source) {
        Ok(found) => tell_number(usize::from(found), answer),
        Err(_) => refuse_memory(answer),
    }
}

/// Writes the places of the lists of a text, as many as fit, and returns how many there are.
#[tactic(auto, using(crate::proofs::Written::lists))]
fn fill(templates: &Templates, size: usize, buffer: &mut [Place]) -> usize
    ensures length { length buffer.new ≡ length buffer.old }
    ensures count { result ≡ count_of (length (lists_before templates.now.lists.spans.items size)) }
    ensures held { let places = lists_before templates.now.lists.spans.items size in
        HoldItems start_and_end places buffer.new }
{
    let mut count = 0;
    'bytes: for start in 0..size {
        if let Some(end) = templates.end_of(start) {
            if count < buffer.len() {
                buffer[count] = Place { start, end };
            }
            count = count.saturating_add(1);
        }
    }
    count
}

/// Writes where each template list of a text starts, at its `<`, and where the text after it
/// begins: as many as fit, in the order of their starts, and how many there are.
pub fn write_lists(alloc: Global, text: &[u8], buffer: &mut [Place], answer: &mut Answer) -> u32
    ensures { WritesLists text.now buffer.new answer.new result }
{
    let Some(source) = text_of(text, answer) else {
        return NOT_UTF8;
    };
    let Ok(templates) = discover(alloc, source) else {
        return refuse_memory(answer);
    };
    let count = fill(&templates, text.len(), buffer);
    *answer = Answer::of_size(count);
    if buffer.len() < count {
        TOO_SMALL
    } else {
        DONE
    }
}
