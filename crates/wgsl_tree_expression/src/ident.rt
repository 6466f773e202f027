//! Names.

ghost use Rattle.std.specs.Prelude.{◌≡◌, Some, IfOk, string_bytes};
ghost use Rattle.wgsl_tree_expression.specs.View.{ident_name};

use std::alloc::{AllocError, Global};
use std::fmt;
use wgsl_span::CloneWith;

/// A name. Two are equal if they are spelled alike.
#[derive(PartialEq, Eq, Hash, Debug, Drop)]
pub struct Ident {
    name: String,
}

impl Ident {
    /// Creates a name that is spelled like the text.
    pub fn new(name: String) -> Self
        ensures { ident_name result ≡ string_bytes name }
    {
        Ident { name }
    }

    /// Returns how the name is spelled.
    pub fn name(&self) -> &str
        ensures { result.now ≡ ident_name self.now }
    {
        self.name.as_str()
    }

    /// Replaces the spelling of the name.
    pub fn rename(&mut self, name: String)
        ensures { ident_name self.new ≡ string_bytes name }
    {
        self.name = name;
    }

    /// Returns a copy, unless allocation fails.
    pub fn clone(&self, alloc: Global) -> Result<Self, AllocError>
        ensures { IfOk result (λ copy. ident_name copy ≡ ident_name self.now) }
    {
        self.clone_with(alloc)
    }
}

impl From<String> for Ident {
    ghost from_gives = { λ name ident. ident_name ident ≡ string_bytes name };

    fn from(name: String) -> Self {
        Ident::new(name)
    }
}

impl CloneWith for Ident {
    ghost copies = { λ ident copy. ident_name copy ≡ ident_name ident };

    fn clone_with(&self, alloc: Global) -> Result<Self, AllocError> {
        Ok(Ident::new(String::from_str(alloc, self.name())?))
    }
}

impl fmt::Display for Ident {
    ghost output = { λ ident. Some (ident_name ident) };

    fn fmt<W: fmt::Write>(&self, f: &mut fmt::Formatter<W>) -> fmt::Result {
        f.write_str(self.name())
    }
}
