//! The print of a packed form by the texts of its rules, without a tree: as WGSL or as JSON.
#![tactic(auto)]

mod error;
mod json;
mod notation;
mod printer;
mod reading;
mod rules;
mod writing;

ghost use Rattle.std.specs.Prelude.{◌≡◌, ℕ, List, [], codes, IfOk, MatchResult};
ghost use Rattle.wgsl_model_packed.specs.Printing.{PrintsBy};
ghost use Rattle.wgsl_print_packed.specs.Notations.{notation_of};
ghost use Rattle.wgsl_print_packed.specs.declared.error.PackedError.TheVariants as errors;

use crate::printer::Printer;
pub use error::PackedError;
pub use notation::Notation;
use std::alloc::Global;

/// Returns what the rules print of a packed form in a notation.
pub fn print_packed(alloc: Global, notation: Notation, form: &[u8]) -> Result<Vec<u8>, PackedError>
    ensures printed { IfOk result (λ bytes.
        PrintsBy (notation_of notation) 0 (codes "$") form.now bytes.items []) }
    ensures taken { (text : List ℕ) →
        PrintsBy (notation_of notation) 0 (codes "$") form.now text [] →
        MatchResult result (λ bytes. bytes.items ≡ text) (λ error. error ≡ errors.OutOfMemory) }
{
    let mut printer = Printer::new(alloc, notation, form)?;
    printer.print()?;
    printer.finish()
}
