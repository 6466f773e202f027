//! The formatter of `wgslfmt`.

ghost use Rattle.wgsl_format.specs.Deeper.{FormatsWithin};
ghost use Rattle.wgsl_format.specs.RunOutput.{IsReprinted};

use crate::formatter::Formatter;
use crate::report::{Report, refused, too_deep};
use std::alloc::{AllocError, Global};
use std::mem::forget;
use wgsl_error::ErrorKind;
use wgsl_parser::parse_within;
use wgsl_tree_unit::TranslationUnit;

/// The formatter of `wgslfmt`: it prints the unit of a module.
#[derive(Clone, Copy, Debug)]
pub struct Printer {
    /// How many levels deep a module may nest, as `nesting` counts them, if there is a limit.
    pub depth: Option<usize>,
    /// Whether the process ends after the run: that frees the unit sooner than a drop.
    pub ends: bool,
}

impl Formatter for Printer {
    ghost writes = { λ printer bytes due. FormatsWithin printer.depth bytes due };

    ghost is_made_of = { λ _ bytes text. IsReprinted bytes text };

    fn report(&self, alloc: Global, source: &[u8]) -> Result<Report, AllocError> {
        let Ok(text) = std::str::from_utf8(source) else {
            return Ok(Report::NotUtf8);
        };
        match parse_within(alloc, text, rules_for(self.depth)) {
            Ok(unit) => {
                let mut printed = String::with_capacity(alloc, text.len())?;
                write!(printed, "{unit}")?;
                leave(unit, self.ends);
                Ok(Report::Written(printed))
            }
            Err(error) => {
                if let Some(depth) = self.depth {
                    if matches!(error.error, ErrorKind::OutOfMemory) {
                        return too_deep(alloc, text, depth);
                    }
                }
                refused(alloc, error)
            }
        }
    }
}

/// How deep `parse_within` may go for a number of levels: a statement or an expression in none of
/// them is one for it.
fn rules_for(depth: Option<usize>) -> usize {
    match depth {
        Some(depth) => depth.saturating_add(1),
        None => usize::MAX,
    }
}

/// Frees a unit, unless the process ends.
fn leave(unit: TranslationUnit, ends: bool) {
    if ends {
        forget(unit);
    }
}
