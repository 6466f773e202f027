//! Which names get new names.

use wgsl_minify_names::Which;

/// The choice of the names of a module that get new names.
#[derive(Clone, Copy, Debug)]
pub struct MinifyOptions<'a> {
    pub names: Which,
    /// Names that stay, beside those of entry points and overrides and those that may be from
    /// outside of the module. A function with an attribute that the language does not know, without
    /// arguments, is an entry point.
    pub keep: &'a [&'a str],
}
