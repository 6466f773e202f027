//! Modules formatted with their comments, by a layout that is chosen.

ghost use Rattle.std.specs.Prelude.{◌≡◌, ◌⊎◌, chars, length, IfOk, IfErr, string_bytes};
ghost use Rattle.wgsl_model_tidy.specs.Syntax.{IsFaultAfterMark};
ghost use Rattle.wgsl_format_layout.specs.Layouts.{layout_view};
ghost use Rattle.wgsl_error.specs.View.{fault_view};
ghost use Rattle.wgsl_read_cursor.specs.Answers.{IsOutOfMemory};
ghost use Rattle.wgsl_read_cursor.specs.Places.{StandsWithin};
ghost use Rattle.wgsl_format.specs.RunOutput.{IsTidiedBy};
ghost use Rattle.wgsl_error.specs.declared.ErrorKind.TheVariants as kinds;
ghost use Rattle.wgsl_buffers.specs.Answers.{counted, TellsError};
ghost use Rattle.wgsl_buffers.specs.Deep.{TellsDeeperAfterMark};
ghost use Rattle.wgsl_buffers.specs.Layouts.{layout_of};
ghost use Rattle.wgsl_buffers.specs.Calls.{Tidies};

use crate::answer::{Answer, NOT_UTF8, TOO_DEEP, tell_text, text_of};
use crate::fault::tell_error;
use std::alloc::Global;
use wgsl_error::Error;
use wgsl_format::{Indent, Layout, Newlines, split_mark, tidy_within};

/// The choices of a caller for the layout.
#[repr(C)]
#[derive(Clone, Copy, Debug, PartialEq, Eq)]
pub struct Choices {
    /// How many columns a line may have, or 0 if no line is broken for its length.
    pub width: usize,
    /// How many columns a level of indentation has.
    pub indent: u8,
    /// 0 if a level is spaces, any other number if it is a tab.
    pub tab: u8,
    /// 0 for the line breaks of the source, 1 for LF, any other number for CR LF.
    pub newlines: u8,
}

impl Choices {
    /// The layout that is chosen.
    fn layout(&self) -> Layout
        ensures { layout_view result ≡ layout_of self.now }
    {
        Layout {
            width: self.width,
            indent: match self.tab {
                0 => Indent::Spaces(self.indent),
                _ => Indent::Tab(self.indent),
            },
            newlines: match self.newlines {
                0 => Newlines::Auto,
                1 => Newlines::Lf,
                _ => Newlines::CrLf,
            },
        }
    }
}

/// The formatted text of a module, which may nest a number of levels deep.
fn tidied(alloc: Global, source: &str, depth: usize, choices: &Choices) -> Result<String, Error>
    ensures accepted { IfOk result (λ text.
        IsTidiedBy (layout_of choices.now) source.now (string_bytes text)) }
    ensures refused { IfErr result (λ e.
        IsOutOfMemory e ⊎ IsFaultAfterMark (chars source.now) (fault_view e)) }
    ensures placed { IfErr result (λ e. StandsWithin e.span (length source.now)) }
{
    let text = tidy_within(alloc, source, choices.layout(), depth)?;
    Ok(text)
}

/// Reports an error of a source that may nest a number of levels deep, by its place in the source,
/// and returns the status.
fn tell_refused(
    alloc: Global,
    source: &str,
    depth: usize,
    error: Error,
    buffer: &mut [u8],
    answer: &mut Answer,
) -> u32
    ensures refused { result ≡ 1 → TellsError error buffer.old buffer.new answer.new }
    ensures named { result ≡ 1 → ¬ (error.error ≡ kinds.OutOfMemory) }
    ensures deeper { result ≡ 7 →
        TellsDeeperAfterMark depth source.now buffer.old buffer.new answer.new }
    ensures memory { result ≡ 3 → answer.new ≡ counted 0 }
    ensures status { (result ≡ 1) ⊎ ((result ≡ 3) ⊎ (result ≡ 7)) }
{
    let (mark, text) = split_mark(source);
    let status = tell_error(alloc, text, depth, error, buffer, answer);
    if status == TOO_DEEP {
        answer.start += mark.len();
        answer.end += mark.len();
    }
    status
}

/// Writes the formatted text of a module, with its comments.
pub fn tidy(
    alloc: Global,
    depth: usize,
    choices: &Choices,
    text: &[u8],
    buffer: &mut [u8],
    answer: &mut Answer,
) -> u32
    ensures { Tidies depth (layout_of choices.now) text.now buffer.old buffer.new answer.new result }
{
    let Some(source) = text_of(text, answer) else {
        return NOT_UTF8;
    };
    match tidied(alloc, source, depth, choices) {
        Ok(tidied) => tell_text(tidied.as_str(), buffer, answer),
        Err(error) => tell_refused(alloc, source, depth, error, buffer, answer),
    }
}
