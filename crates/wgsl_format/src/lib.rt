//! `wgslfmt` over any reader and writers, and the formatted text of a module.
#![tactic(auto)]

mod deeper;
mod expected;
mod formatter;
mod printer;
mod printing;
mod program;
mod report;
mod source;
mod streams;
mod tidied;

pub use deeper::{deeper_at, deeper_in_file, deeper_message};
pub use expected::with_expected;
pub use formatter::Formatter;
pub use printer::Printer;
pub use printing::{run, start, start_with};
pub use program::run_with;
pub use report::Report;
pub use source::{split_mark, unmarked};
pub use streams::{ReadError, read_all, refuse_memory, send};
pub use tidied::{tidy, tidy_with, tidy_within};
pub use wgsl_format_layout::{Indent, Layout, Newlines};
