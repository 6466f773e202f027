//! The formatted text of a module.

ghost use Rattle.std.specs.Prelude.{◌≡◌, ◌⊎◌, chars, length, string_bytes, IfOk, IfErr};
ghost use Rattle.wgsl_error.specs.View.{fault_view};
ghost use Rattle.wgsl_read_cursor.specs.Answers.{IsOutOfMemory};
ghost use Rattle.wgsl_read_cursor.specs.Places.{StandsWithin};
ghost use Rattle.wgsl_model_tidy.specs.NonBlank.{non_blank};
ghost use Rattle.wgsl_model_tidy.specs.Layout.{standard};
ghost use Rattle.wgsl_format_layout.specs.Layouts.{layout_view};
ghost use Rattle.wgsl_model_tidy.specs.Formatted.{unmarked};
ghost use Rattle.wgsl_model_tidy.specs.Kept.{IsFormatted, Keeps};
ghost use Rattle.wgsl_model_tidy.specs.Syntax.{IsModuleInSyntax, IsFaultAfterMark};

use crate::source::{ends_crlf, error_after, split_mark, with_line_ends};
use std::alloc::Global;
use wgsl_error::Error;
use wgsl_format_layout::{Layout, laid_out};
use wgsl_lexer::TextTokens;
use wgsl_read_dialect::check_syntax;

/// Returns the formatted text of a module: its tokens and its comments as they are, in order, and
/// between them the white space that the rules of the layout ask for, with lines of up to 100
/// columns where a line break at a bracket can make them so, and four spaces a level. A byte order
/// mark at the start stays, and every line ends with CR LF if the first line of the source does,
/// otherwise with LF, in block comments too. If a block comment begins a line and each of its later
/// lines begins with `*`, these lines begin one column after its first. Names are not checked, so a
/// text with reserved words or with attributes, address spaces or severities that `parse_str` does
/// not know is formatted too. Otherwise the error is the first token that can't be where it is;
/// else the text that is no token; else that the text ends too early.
pub fn tidy(alloc: Global, source: &str) -> Result<String, Error>
    ensures accepted { IfOk result (λ _. IsModuleInSyntax (unmarked (chars source.now))) }
    ensures refused { IfErr result (λ e.
        IsOutOfMemory e ⊎ IsFaultAfterMark (chars source.now) (fault_view e)) }
    ensures placed { IfErr result (λ e. StandsWithin e.span (length source.now)) }

    // The characters that are not blank space stay, in the same order.
    ensures characters { IfOk result (λ text.
        non_blank (chars (string_bytes text)) ≡ non_blank (chars source.now)) }
    ensures formatted { IfOk result (λ text.
        IsFormatted standard (chars source.now) (chars (string_bytes text))) }
    ensures kept { IfOk result (λ text.
        Keeps standard (chars source.now) (chars (string_bytes text))) }
{
    tidy_with(alloc, source, Layout::standard())
}

/// Formats a module as `tidy` does, with lines of another width, another indentation, or other line
/// breaks. Every `Layout` is accepted.
pub fn tidy_with(alloc: Global, source: &str, layout: Layout) -> Result<String, Error>
    ensures accepted { IfOk result (λ _. IsModuleInSyntax (unmarked (chars source.now))) }
    ensures refused { IfErr result (λ e.
        IsOutOfMemory e ⊎ IsFaultAfterMark (chars source.now) (fault_view e)) }
    ensures placed { IfErr result (λ e. StandsWithin e.span (length source.now)) }
    ensures characters { IfOk result (λ text.
        non_blank (chars (string_bytes text)) ≡ non_blank (chars source.now)) }
    ensures formatted { IfOk result (λ text.
        IsFormatted (layout_view layout) (chars source.now) (chars (string_bytes text))) }
    ensures kept { IfOk result (λ text.
        Keeps (layout_view layout) (chars source.now) (chars (string_bytes text))) }
{
    tidy_within(alloc, source, layout, usize::MAX)
}

/// Formats a module as `tidy_with` does, on a stack that grows with a depth: where brackets, blocks
/// and template lists nest deeper than a number of levels, the error is of the kind `OutOfMemory`.
/// They are counted by the rules of the grammar, so a few more levels may be accepted.
pub fn tidy_within(
    alloc: Global,
    source: &str,
    layout: Layout,
    depth: usize,
) -> Result<String, Error>
    ensures accepted { IfOk result (λ _. IsModuleInSyntax (unmarked (chars source.now))) }
    ensures refused { IfErr result (λ e.
        IsOutOfMemory e ⊎ IsFaultAfterMark (chars source.now) (fault_view e)) }
    ensures placed { IfErr result (λ e. StandsWithin e.span (length source.now)) }
    ensures characters { IfOk result (λ text.
        non_blank (chars (string_bytes text)) ≡ non_blank (chars source.now)) }
    ensures formatted { IfOk result (λ text.
        IsFormatted (layout_view layout) (chars source.now) (chars (string_bytes text))) }
    ensures kept { IfOk result (λ text.
        Keeps (layout_view layout) (chars source.now) (chars (string_bytes text))) }
{
    let (mark, text) = split_mark(source);
    let tokens = TextTokens::new(alloc, text)?;
    if let Err(error) = check_syntax(alloc, text, tokens.clone(alloc)?, depth) {
        return Err(error_after(mark.len(), error));
    }
    let laid = laid_out(alloc, text, tokens, layout)?;
    let crlf = ends_crlf(layout.newlines, text);
    Ok(with_line_ends(alloc, mark, laid, crlf)?)
}
