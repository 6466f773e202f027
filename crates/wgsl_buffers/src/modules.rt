//! Modules: formatted, checked, recognised, and how deep they nest.

ghost use Rattle.std.specs.Prelude.{◌≡◌, ◌⊎◌, chars, length, IfOk, IfErr, string_bytes};
ghost use Rattle.wgsl_model.specs.Trees.Units as model;
ghost use Rattle.wgsl_model.specs.Printed.Units.{print_unit};
ghost use Rattle.wgsl_model.specs.Program.{IsUnit, IsFaultOf};
ghost use Rattle.wgsl_error.specs.View.{fault_view};
ghost use Rattle.wgsl_read_cursor.specs.Answers.{IsOutOfMemory};
ghost use Rattle.wgsl_read_cursor.specs.Places.{StandsWithin};
ghost use Rattle.wgsl_read_dialect.specs.Recognized.{IsRecognized, IsRefused};
ghost use Rattle.wgsl_buffers.specs.Calls.{Formats, Checks, Recognizes, MeasuresNesting};

use crate::answer::{Answer, NOT_UTF8, refuse_memory, tell_number, tell_text, text_of};
use crate::deep::{bound, rules_for};
use crate::fault::tell_error;
use std::alloc::Global;
use wgsl_error::Error;
use wgsl_parser::parse_within;
use wgsl_read_dialect::recognize_str;
use wgsl_read_nesting::nesting;

/// The text that a module is printed as, which may nest a number of levels deep.
fn printed(alloc: Global, source: &str, depth: usize) -> Result<String, Error>
    ensures accepted { IfOk result (λ text. (unit : model.TranslationUnit) ×
        IsUnit (chars source.now) unit × (string_bytes text ≡ print_unit unit)) }
    ensures refused { IfErr result (λ e.
        IsOutOfMemory e ⊎ IsFaultOf (chars source.now) (fault_view e)) }
    ensures placed { IfErr result (λ e. StandsWithin e.span (length source.now)) }
{
    let unit = parse_within(alloc, source, rules_for(depth))?;
    Ok(unit.to_string(alloc)?)
}

/// Whether a text is a module, which may nest a number of levels deep, and whose tree is let go.
pub(crate) fn checked(alloc: Global, source: &str, depth: usize) -> Result<(), Error>
    ensures accepted { IfOk result (λ _.
        (unit : model.TranslationUnit) × IsUnit (chars source.now) unit) }
    ensures refused { IfErr result (λ e.
        IsOutOfMemory e ⊎ IsFaultOf (chars source.now) (fault_view e)) }
    ensures placed { IfErr result (λ e. StandsWithin e.span (length source.now)) }
{
    parse_within(alloc, source, rules_for(depth))?;
    Ok(())
}

/// Whether a text is a module of the dialect, which may nest a number of levels deep.
fn recognized(alloc: Global, source: &str, depth: usize) -> Result<(), Error>
    ensures accepted { IfOk result (λ _. IsRecognized (chars source.now)) }
    ensures refused { IfErr result (λ e.
        IsOutOfMemory e ⊎ IsRefused (chars source.now) (fault_view e)) }
    ensures placed { IfErr result (λ e. StandsWithin e.span (length source.now)) }
{
    bound(alloc, source, depth)?;
    recognize_str(alloc, source)
}

/// Writes the canonical text of a module.
pub fn format(
    alloc: Global,
    depth: usize,
    text: &[u8],
    buffer: &mut [u8],
    answer: &mut Answer,
) -> u32
    ensures { Formats depth text.now buffer.old buffer.new answer.new result }
{
    let Some(source) = text_of(text, answer) else {
        return NOT_UTF8;
    };
    match printed(alloc, source, depth) {
        Ok(printed) => tell_text(printed.as_str(), buffer, answer),
        Err(error) => tell_error(alloc, source, depth, error, buffer, answer),
    }
}

/// Checks whether a text is a module.
pub fn check(
    alloc: Global,
    depth: usize,
    text: &[u8],
    buffer: &mut [u8],
    answer: &mut Answer,
) -> u32
    ensures { Checks depth text.now buffer.old buffer.new answer.new result }
{
    let Some(source) = text_of(text, answer) else {
        return NOT_UTF8;
    };
    match checked(alloc, source, depth) {
        Ok(()) => tell_number(0, answer),
        Err(error) => tell_error(alloc, source, depth, error, buffer, answer),
    }
}

/// Checks whether a text is a module of the dialect.
pub fn recognize(
    alloc: Global,
    depth: usize,
    text: &[u8],
    buffer: &mut [u8],
    answer: &mut Answer,
) -> u32
    ensures { Recognizes depth text.now buffer.old buffer.new answer.new result }
{
    let Some(source) = text_of(text, answer) else {
        return NOT_UTF8;
    };
    match recognized(alloc, source, depth) {
        Ok(()) => tell_number(0, answer),
        Err(error) => tell_error(alloc, source, depth, error, buffer, answer),
    }
}

/// Reports the greatest number of brackets, blocks, template lists and prefix operators that are
/// open at one place.
pub fn measure_nesting(alloc: Global, text: &[u8], answer: &mut Answer) -> u32
    ensures { MeasuresNesting text.now answer.new result }
{
    let Some(source) = text_of(text, answer) else {
        return NOT_UTF8;
    };
    match nesting(alloc, source) {
        Ok(depth) => tell_number(depth, answer),
        Err(_) => refuse_memory(answer),
    }
}
