//! The names of a text with what they refer to.

ghost use Rattle.std.specs.Prelude.{◌⊎◌, chars, length, IfOk, IfErr};
ghost use Rattle.wgsl_error.specs.View.{fault_view};
ghost use Rattle.wgsl_model_tidy.specs.Syntax.{IsSyntaxFaultOf};
ghost use Rattle.wgsl_read_cursor.specs.Answers.{IsOutOfMemory};
ghost use Rattle.wgsl_read_cursor.specs.Places.{StandsWithin};
ghost use Rattle.wgsl_read_names.specs.Texts.{AreNamesOf};

use crate::text::events_within;
use std::alloc::Global;
use wgsl_error::Error;
use wgsl_resolve_names::{Names, resolve};

/// Returns the names of a text that has the syntax of a module, in the order of its tokens: each
/// with its place, what it is, and what it may refer to. Names are not checked, as in
/// `check_syntax`, whose errors are those.
pub fn names<'s>(alloc: Global, source: &'s str) -> Result<Names<'s>, Error>
    ensures accepted { IfOk result (AreNamesOf (chars source.now)) }
    ensures refused { IfErr result (λ e.
        IsOutOfMemory e ⊎ IsSyntaxFaultOf (chars source.now) (fault_view e)) }
    ensures placed { IfErr result (λ e. StandsWithin e.span (length source.now)) }
{
    names_within(alloc, source, usize::MAX)
}

/// Returns what `names` does, on a stack that grows with a depth, as `events_within`.
pub fn names_within<'s>(alloc: Global, source: &'s str, depth: usize) -> Result<Names<'s>, Error>
    ensures accepted { IfOk result (AreNamesOf (chars source.now)) }
    ensures refused { IfErr result (λ e.
        IsOutOfMemory e ⊎ IsSyntaxFaultOf (chars source.now) (fault_view e)) }
    ensures placed { IfErr result (λ e. StandsWithin e.span (length source.now)) }
{
    let events = events_within(alloc, source, depth)?;
    let names = resolve(alloc, &events)?;
    Ok(names)
}
