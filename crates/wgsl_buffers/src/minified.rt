//! Modules minified, with their new names.

ghost use Rattle.std.specs.Prelude.{◌≡◌, ◌≤◌, ◌<◌, ◌⊎◌, ◌++◌, ℕ, List, IfErr, IfOk, MatchOption, chars, length, string_bytes, take};
ghost use Rattle.std.specs.Str.{IsUtf8};
ghost use Rattle.std.specs.Str.Lines.{lines};
ghost use Rattle.wgsl_error.specs.View.{fault_view};
ghost use Rattle.wgsl_minify.specs.Modules.{IsMinified};
ghost use Rattle.wgsl_minify_names.specs.View.{texts, which_view};
ghost use Rattle.wgsl_model.specs.Program.{IsFaultOf};
ghost use Rattle.wgsl_name_map.specs.Maps.{map_form};
ghost use Rattle.wgsl_read_cursor.specs.Answers.{IsOutOfMemory};
ghost use Rattle.wgsl_read_cursor.specs.Places.{StandsWithin};
ghost use Rattle.wgsl_buffers.specs.Minified.{Minifies, which_of, with_names};

use crate::answer::{Answer, BAD_NAME, DONE, NOT_UTF8, TOO_SMALL, UNKNOWN, give, text_of};
use crate::deep::rules_for;
use crate::fault::tell_error;
use std::alloc::{AllocError, Global};
use wgsl_error::Error;
use wgsl_minify::{Minified, MinifyOptions, Which, minify_within};
use wgsl_name_map::map_text;

/// A minified text, and the JSON of its new names after it.
#[derive(Drop)]
struct TextAndNames {
    both: String,
    /// Where the JSON starts.
    names: usize,
}

/// Which names get new ones, by their number.
fn which_of(names: u32) -> Option<Which>
    ensures { MatchOption result (2 < names) (λ which.
        (names ≤ 2) × (which_view which ≡ which_of names)) }
{
    match names {
        0 => Some(Which::None),
        1 => Some(Which::Locals),
        2 => Some(Which::All),
        _ => None,
    }
}

/// The lines of a text.
fn lines_of<'t>(alloc: Global, text: &'t str) -> Result<Vec<&'t str>, AllocError>
    ensures { IfOk result (λ names. texts names.items ≡ lines text.now) }
{
    text.lines().collect::<Vec<&str>>(alloc)
}

/// The minified text of a module, which may nest a number of levels deep, and in which the names on
/// these lines stay, and its new names.
#[tactic(auto, using(crate::proofs::Valid::valid))]
fn minified(
    alloc: Global,
    source: &str,
    depth: usize,
    names: Which,
    keep: &str,
) -> Result<TextAndNames, Error>
    ensures accepted { IfOk result (λ it. (text : List ℕ) × (table : List (List ℕ × List ℕ))
        × IsMinified (which_view names) (lines keep.now) (chars source.now) table (chars text)
        × (string_bytes it.both ≡ text ++ map_form table) × (it.names ≡ length text)
        × IsUtf8 text) }
    ensures refused { IfErr result (λ e.
        IsOutOfMemory e ⊎ IsFaultOf (chars source.now) (fault_view e)) }
    ensures placed { IfErr result (λ e. StandsWithin e.span (length source.now)) }
{
    let keep = lines_of(alloc, keep)?;
    let options = MinifyOptions { names, keep: &keep };
    let Minified { text, names } = minify_within(alloc, source, options, rules_for(depth))?;
    let map = map_text(alloc, &names)?;
    let mut both = text;
    let names = both.len();
    both.push_str(map.as_str())?;
    Ok(TextAndNames { both, names })
}

/// Gives a minified text with its new names as the result of a call, and returns the status.
fn tell_minified(minified: &TextAndNames, buffer: &mut [u8], answer: &mut Answer) -> u32
    ensures told { answer.new
        ≡ with_names (length (string_bytes minified.now.both)) minified.now.names }
    ensures given { let both = string_bytes minified.now.both in
        ((result ≡ 0) × (take (length both) buffer.new ≡ both)) ⊎
        ((result ≡ 4) × (length buffer.old < length both) × (buffer.new ≡ buffer.old)) }
{
    let size = minified.both.len();
    *answer = Answer {
        size,
        start: minified.names,
        end: size,
        kind: 0,
        expected: 0,
    };
    if give(minified.both.as_bytes(), buffer) {
        DONE
    } else {
        TOO_SMALL
    }
}

/// Writes the minified text of a module and, after it, the JSON of its new names: with 0 no name
/// gets a new one, with 1 those that are declared in functions alone, with 2 all, except those on
/// the lines of `keep`.
pub fn minify(
    alloc: Global,
    depth: usize,
    names: u32,
    keep: &[u8],
    text: &[u8],
    buffer: &mut [u8],
    answer: &mut Answer,
) -> u32
    ensures { Minifies depth names keep.now text.now buffer.old buffer.new answer.new result }
{
    let Some(source) = text_of(text, answer) else {
        return NOT_UTF8;
    };
    let Some(names) = which_of(names) else {
        *answer = Answer::of_size(0);
        return UNKNOWN;
    };
    let Ok(keep) = std::str::from_utf8(keep) else {
        return BAD_NAME;
    };
    match minified(alloc, source, depth, names, keep) {
        Ok(minified) => tell_minified(&minified, buffer, answer),
        Err(error) => tell_error(alloc, source, depth, error, buffer, answer),
    }
}
