//! Reading a module from a text.

ghost use Rattle.std.specs.Prelude.{◌⊎◌, chars, length, IfOk, IfErr};
ghost use Rattle.wgsl_model.specs.Program.{IsUnit, IsFaultOf};
ghost use Rattle.wgsl_error.specs.View.{fault_view};
ghost use Rattle.wgsl_tree_unit.specs.View.{unit_view};
ghost use Rattle.wgsl_read_cursor.specs.Answers.{IsOutOfMemory};
ghost use Rattle.wgsl_read_cursor.specs.Places.{StandsWithin};

use crate::read::read_text;
use std::alloc::Global;
use wgsl_error::Error;
use wgsl_tree_unit::TranslationUnit;

/// Reads a module, or returns what is wrong with the text: the checked fault that ends first, as a
/// reserved word in place of a name or an attribute whose arguments do not fit, if it ends before
/// the first token that can't be where it is; else that token; else the text that is not a token;
/// else that the text ends too early.
pub fn parse_str(alloc: Global, source: &str) -> Result<TranslationUnit, Error>
    ensures accepted { IfOk result (λ unit. IsUnit (chars source.now) (unit_view unit)) }
    ensures refused { IfErr result (λ e.
        IsOutOfMemory e ⊎ IsFaultOf (chars source.now) (fault_view e)) }
    ensures placed { IfErr result (λ e. StandsWithin e.span (length source.now)) }
{
    parse_within(alloc, source, usize::MAX)
}

/// Reads a module as `parse_str` does, on a stack that grows with a depth: where statements and
/// expressions nest deeper than a number of levels, the error is of the kind `OutOfMemory`. Each
/// statement inside another, each expression inside another and each operator before an operand is
/// a level.
pub fn parse_within(alloc: Global, source: &str, depth: usize) -> Result<TranslationUnit, Error>
    ensures accepted { IfOk result (λ unit. IsUnit (chars source.now) (unit_view unit)) }
    ensures refused { IfErr result (λ e.
        IsOutOfMemory e ⊎ IsFaultOf (chars source.now) (fault_view e)) }
    ensures placed { IfErr result (λ e. StandsWithin e.span (length source.now)) }
{
    read_text(alloc, source, depth)
}
