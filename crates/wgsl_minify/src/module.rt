//! Minified modules.

ghost use Rattle.std.specs.Prelude.{◌⊎◌, chars, length, string_bytes, IfOk, IfErr};
ghost use Rattle.wgsl_model.specs.Program.{IsFaultOf};
ghost use Rattle.wgsl_error.specs.View.{fault_view};
ghost use Rattle.wgsl_read_cursor.specs.Answers.{IsOutOfMemory};
ghost use Rattle.wgsl_read_cursor.specs.Places.{StandsWithin};
ghost use Rattle.wgsl_minify_names.specs.View.{texts, which_view};
ghost use Rattle.wgsl_tree_renamed.specs.NewNames.{pairs};
ghost use Rattle.wgsl_minify.specs.Modules.{IsMinified};

use crate::names::new_names;
use crate::options::MinifyOptions;
use crate::print::short_print;
use std::alloc::Global;
use wgsl_error::Error;
use wgsl_parser::parse_within;
use wgsl_tree_renamed::{NewNames, rename};

/// A minified module.
#[derive(Drop)]
pub struct Minified {
    pub text: String,
    /// The names that got new names, with these, the names that occur most often first.
    pub names: NewNames,
}

/// Minifies a module: gives shorter names to what it declares, and returns with these names what
/// `minify_print` makes of its print, without comments and empty items. Each use of a name refers to
/// what it referred to before. The names of members stay, and so do those of entry points and
/// overrides. Otherwise the error is that of `parse_str`.
pub fn minify(alloc: Global, source: &str, options: MinifyOptions<'_>) -> Result<Minified, Error>
    ensures minified { IfOk result (λ it. IsMinified (which_view options.entry.names) (texts options.entry.keep.now)
        (chars source.now) (pairs it.names) (chars (string_bytes it.text))) }
    ensures refused { IfErr result (λ e.
        IsOutOfMemory e ⊎ IsFaultOf (chars source.now) (fault_view e)) }
    ensures placed { IfErr result (λ e. StandsWithin e.span (length source.now)) }
{
    minify_within(alloc, source, options, usize::MAX)
}

/// Minifies a module as `minify` does, on a stack that grows with a depth, as `parse_within` says.
pub fn minify_within(
    alloc: Global,
    source: &str,
    options: MinifyOptions<'_>,
    depth: usize,
) -> Result<Minified, Error>
    ensures minified { IfOk result (λ it. IsMinified (which_view options.entry.names) (texts options.entry.keep.now)
        (chars source.now) (pairs it.names) (chars (string_bytes it.text))) }
    ensures refused { IfErr result (λ e.
        IsOutOfMemory e ⊎ IsFaultOf (chars source.now) (fault_view e)) }
    ensures placed { IfErr result (λ e. StandsWithin e.span (length source.now)) }
{
    let unit = parse_within(alloc, source, depth)?;
    let names = new_names(alloc, &unit, options)?;
    let renamed = rename(&unit, &names, alloc)?;
    let text = short_print(alloc, &renamed)?;
    Ok(Minified { text, names })
}
