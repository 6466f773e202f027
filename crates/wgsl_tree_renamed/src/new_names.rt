//! Tables of new names.

ghost use Rattle.std.specs.Prelude.{◌≡◌, ◌++◌, [], ◌∷◌, None, OnErr, OnOk, length, slice_get, string_bytes};
ghost use Rattle.std.specs.Option.{option_map};
ghost use Rattle.wgsl_model.specs.Tokens.Words.{look_up};
ghost use Rattle.wgsl_tree_renamed.specs.NewNames.{pairs};

use indexmap::IndexMap;
use std::alloc::{AllocError, Global};

/// The new names of some names, in the order in which they were inserted.
#[derive(Drop)]
pub struct NewNames {
    names: IndexMap<String, String>,
}

impl NewNames {
    /// Creates an empty table.
    pub fn new(alloc: Global) -> Self
        ensures { pairs result ≡ [] }
    {
        NewNames {
            names: IndexMap::new(alloc),
        }
    }

    /// Inserts a name with its new name, unless allocation fails. A name that the table has keeps
    /// its place, and gets this new name.
    pub fn insert(&mut self, name: String, new_name: String) -> Result<(), AllocError>
        ensures added { OnOk result (look_up (pairs self.old) (string_bytes name) ≡ None
            → pairs self.new
            ≡ pairs self.old ++ ((string_bytes name, string_bytes new_name) ∷ [])) }
        ensures unchanged { OnErr result (pairs self.new ≡ pairs self.old) }
    {
        self.names.insert(name, new_name)?;
        Ok(())
    }

    /// Returns the new name of a name, if the table has it.
    pub fn new_name(&self, name: &str) -> Option<&str>
        ensures { option_map (λ new_name. new_name.now) result ≡ look_up (pairs self.now) name.now }
    {
        Some(self.names.get(name)?.as_str())
    }

    /// Returns how many names the table has.
    pub fn len(&self) -> usize
        ensures { result ≡ length (pairs self.now) }
    {
        self.names.len()
    }

    /// Returns the name at an index, with its new name, if there is one.
    pub fn get(&self, index: usize) -> Option<(&str, &str)>
        ensures { option_map (λ pair. (pair.0.now, pair.1.now)) result
            ≡ slice_get (pairs self.now) index }
    {
        let pair = self.names.get_index(index)?;
        Some((pair.0.as_str(), pair.1.as_str()))
    }
}
