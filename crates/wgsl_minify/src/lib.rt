//! Minified modules: short texts, with shorter names.
#![tactic(auto)]

mod hosts;
mod module;
mod names;
mod options;
mod print;

pub use module::{Minified, minify, minify_within};
pub use options::MinifyOptions;
pub use wgsl_minify_names::Which;
pub use wgsl_tree_renamed::NewNames;
