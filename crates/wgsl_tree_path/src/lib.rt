//! Paths of modules: how they are read, printed, compared and joined.
#![tactic(auto)]

mod error;
mod join;
mod path;
mod read;

pub use error::ModulePathParseError;
pub use path::{ModulePath, PathOrigin};
