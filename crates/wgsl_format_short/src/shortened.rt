//! The shortest text of a module.

ghost use Rattle.std.specs.Prelude.{◌≡◌, ◌⊎◌, chars, length, string_bytes, IfOk, IfErr};
ghost use Rattle.wgsl_error.specs.View.{fault_view};
ghost use Rattle.wgsl_read_cursor.specs.Answers.{IsOutOfMemory};
ghost use Rattle.wgsl_read_cursor.specs.Places.{StandsWithin};
ghost use Rattle.wgsl_model_tidy.specs.Formatted.{unmarked};
ghost use Rattle.wgsl_model_tidy.specs.Syntax.{IsModuleInSyntax, IsFaultAfterMark};
ghost use Rattle.wgsl_model_short.specs.Shortened.{IsShortest, KeepsTokens, IsLeast};

use crate::shortest::shortest;
use crate::source::{error_after, split_mark};
use std::alloc::Global;
use wgsl_error::Error;
use wgsl_lexer::TextTokens;
use wgsl_read_dialect::check_syntax;

/// Returns the shortest text that has the tokens of a module: their characters, in order, and
/// between two tokens a space if without it they would not be read as these two. Comments, line
/// breaks and a byte order mark at the start are left out. Names are not checked, so the text may
/// have reserved words or attributes, address spaces or severities that `parse_str` does not know.
/// Otherwise the error is the first token that can't be where it is; else the text that is no
/// token; else that the text ends too early. Its place counts the byte order mark.
pub fn shorten(alloc: Global, source: &str) -> Result<String, Error>
    ensures accepted { IfOk result (λ _. IsModuleInSyntax (unmarked (chars source.now))) }
    ensures refused { IfErr result (λ e.
        IsOutOfMemory e ⊎ IsFaultAfterMark (chars source.now) (fault_view e)) }
    ensures placed { IfErr result (λ e. StandsWithin e.span (length source.now)) }
    ensures shortest { IfOk result (λ text.
        IsShortest (chars source.now) (chars (string_bytes text))) }
    ensures kept { IfOk result (λ text.
        KeepsTokens (chars source.now) (chars (string_bytes text))) }
    ensures least { IfOk result (λ text.
        IsLeast (chars source.now) (chars (string_bytes text))) }
{
    shorten_within(alloc, source, usize::MAX)
}

/// Returns what `shorten` does, on a stack that grows with a depth: where brackets, blocks and
/// template lists nest deeper than a number of levels, the error is of the kind `OutOfMemory`. They
/// are counted by the rules of the grammar, so a few more levels may be accepted.
pub fn shorten_within(alloc: Global, source: &str, depth: usize) -> Result<String, Error>
    ensures accepted { IfOk result (λ _. IsModuleInSyntax (unmarked (chars source.now))) }
    ensures refused { IfErr result (λ e.
        IsOutOfMemory e ⊎ IsFaultAfterMark (chars source.now) (fault_view e)) }
    ensures placed { IfErr result (λ e. StandsWithin e.span (length source.now)) }
    ensures shortest { IfOk result (λ text.
        IsShortest (chars source.now) (chars (string_bytes text))) }
    ensures kept { IfOk result (λ text.
        KeepsTokens (chars source.now) (chars (string_bytes text))) }
    ensures least { IfOk result (λ text.
        IsLeast (chars source.now) (chars (string_bytes text))) }
{
    let (mark, text) = split_mark(source);
    let tokens = TextTokens::new(alloc, text)?;
    if let Err(error) = check_syntax(alloc, text, tokens.clone(alloc)?, depth) {
        return Err(error_after(mark, error));
    }
    Ok(shortest(alloc, text, tokens)?)
}
