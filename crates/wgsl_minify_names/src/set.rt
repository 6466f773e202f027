//! Sets of names.

ghost use Rattle.std.specs.Prelude.{◌≡◌, ℕ, List, IfOk};
ghost use Rattle.wgsl_minify_names.specs.InScope.{is_in};
ghost use Rattle.wgsl_minify_names.specs.View.{texts};

use indexmap::IndexSet;
use std::alloc::{AllocError, Global};

/// Returns whether a name is in a set.
pub fn has(set: &IndexSet<&str>, name: &str) -> bool
    ensures { result ≡ is_in name.now (texts set.now.keys) }
{
    set.contains(&name)
}

/// Returns the set of names.
pub fn set_of<'t>(alloc: Global, names: &[&'t str]) -> Result<IndexSet<&'t str>, AllocError>
    ensures { IfOk result (λ set. (x : List ℕ) → is_in x (texts set.keys) ≡ is_in x (texts names.now)) }
{
    let mut set = IndexSet::new(alloc);
    for name in names {
        set.insert(*name)?;
    }
    Ok(set)
}
