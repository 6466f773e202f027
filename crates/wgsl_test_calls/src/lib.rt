//! Callers of the library, as CALLING.md shows them, each under a contract that
//! follows from those of the calls that it makes.
#![tactic(auto)]

mod faults;
mod names;
mod parts;
mod places;
mod texts;

pub use faults::{first_fault, is_module, snippet_of};
pub use names::function_names;
pub use parts::{alias_text, expression_of, expression_of_tokens, nests_within};
pub use places::{declared_names, uses_of};
pub use texts::{formatted, laid_out, laid_out_with_tabs};
