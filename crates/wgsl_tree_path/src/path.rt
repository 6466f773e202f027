//! Paths: what can be asked of them, their copies and prints.

ghost use Rattle.std.specs.Prelude.{◌≡◌, ℕ, ◌-◌, ◌<◌, ◌↔◌, List, [], ◌∷◌, map, length, Some, IsTrue, IfOk, OnOk, OnErr, slice_get, option_copied, string_bytes};
ghost use Rattle.std.specs.Fmt.{DisplaysOnOk};
ghost use Rattle.wgsl_model.specs.Trees.Paths as plain;
ghost use Rattle.wgsl_tree_path.specs.View.{plain_path, origin_view, path_view};

use std::alloc::{AllocError, Global};
use std::fmt;
use std::fmt::Write;

/// The origin of a path, where it begins.
#[derive(PartialEq, Eq, Hash, Debug, Drop)]
pub enum PathOrigin {
    /// At the root of the package: `package`.
    Absolute,
    /// In this module, or as many levels up: `self`, `super`, `super::super`.
    Relative(usize),
    /// At the root of the package with this name.
    Package(String),
}

impl PathOrigin {
    /// Returns whether the path begins with `package`.
    pub fn is_absolute(&self) -> bool
        ensures { IsTrue result ↔ (origin_view self.now ≡ plain.absolute) }
    {
        matches!(self, PathOrigin::Absolute)
    }

    /// Returns whether the path begins with `self` or `super`.
    pub fn is_relative(&self) -> bool
        ensures { IsTrue result
            ↔ ((levels : ℕ) × (origin_view self.now ≡ plain.relative levels)) }
    {
        matches!(self, PathOrigin::Relative(_))
    }

    /// Returns whether the path begins with the name of a package.
    pub fn is_package(&self) -> bool
        ensures { IsTrue result
            ↔ ((name : List ℕ) × (origin_view self.now ≡ plain.of_package name)) }
    {
        matches!(self, PathOrigin::Package(_))
    }

    /// Returns a copy, unless allocation fails.
    pub fn clone(&self, alloc: Global) -> Result<Self, AllocError>
        ensures { IfOk result (λ copy. origin_view copy ≡ origin_view self.now) }
    {
        Ok(match self {
            PathOrigin::Absolute => PathOrigin::Absolute,
            PathOrigin::Relative(levels) => PathOrigin::Relative(*levels),
            PathOrigin::Package(name) => PathOrigin::Package(String::from_str(alloc, name)?),
        })
    }
}

/// A path to a module, or to what the module declares.
#[derive(PartialEq, Eq, Hash, Debug, Drop)]
pub struct ModulePath {
    pub origin: PathOrigin,
    pub components: Vec<String>,
}

impl ModulePath {
    /// Creates a path of any origin and any components, also ones that no text can say.
    pub fn new(origin: PathOrigin, components: Vec<String>) -> Self
        ensures { path_view result
            ≡ plain_path (origin_view origin) (map string_bytes components.items) }
    {
        ModulePath { origin, components }
    }

    /// Creates the path `package`.
    pub fn new_root(alloc: Global) -> Self
        ensures { path_view result ≡ plain.root_path }
    {
        ModulePath::new(PathOrigin::Absolute, Vec::new(alloc))
    }

    /// Adds a component at the end.
    pub fn push(&mut self, alloc: Global, item: &str) -> Result<(), AllocError>
        ensures pushed { OnOk result
            (path_view self.new ≡ plain.extended (path_view self.old) (item.now ∷ [])) }
        ensures refused { OnErr result (path_view self.new ≡ path_view self.old) }
    {
        self.components.push(String::from_str(alloc, item)?)?;
        Ok(())
    }

    /// Returns the first component, which is after the origin.
    pub fn first(&self) -> Option<&str>
        ensures { option_copied result ≡ slice_get (path_view self.now).components 0 }
    {
        self.components.first().map(String::as_str)
    }

    /// Returns the last component.
    pub fn last(&self) -> Option<&str>
        ensures { let components = (path_view self.now).components in
            option_copied result ≡ slice_get components (length components - 1) }
    {
        self.components.last().map(String::as_str)
    }

    /// Returns whether the path has the origin of the prefix, and its components first.
    pub fn starts_with(&self, prefix: &Self) -> bool
        ensures { IsTrue result ↔ plain.StartsWith (path_view self.now) (path_view prefix.now) }
    {
        self.origin == prefix.origin && self.components.starts_with(&prefix.components)
    }

    /// Returns whether this is the path `package`.
    pub fn is_root(&self) -> bool
        ensures { IsTrue result ↔ (path_view self.now ≡ plain.root_path) }
    {
        self.origin.is_absolute() && self.components.is_empty()
    }

    /// Returns a copy, unless allocation fails.
    pub fn clone(&self, alloc: Global) -> Result<Self, AllocError>
        ensures { IfOk result (λ copy. path_view copy ≡ path_view self.now) }
    {
        Ok(ModulePath {
            origin: self.origin.clone(alloc)?,
            components: clone_names(alloc, &self.components)?,
        })
    }
}

impl fmt::Display for ModulePath {
    ghost output = { λ path. Some (plain.path_text (path_view path)) };

    fn fmt<W: fmt::Write>(&self, f: &mut fmt::Formatter<W>) -> fmt::Result {
        write_origin(&self.origin, f)?;
        'components: for component in &self.components {
            write!(f, "::{component}")?;
        }
        Ok(())
    }
}

/// Writes the words of an origin, or its name.
fn write_origin<W: fmt::Write>(origin: &PathOrigin, f: &mut fmt::Formatter<W>) -> fmt::Result
    ensures { let text = plain.origin_text (origin_view origin.now) in
        DisplaysOnOk W.write_str_gives f.old result (Some text) f.new }
{
    match origin {
        PathOrigin::Absolute => f.write_str("package"),
        PathOrigin::Relative(0) => f.write_str("self"),
        PathOrigin::Relative(levels) => write_supers(*levels, f),
        PathOrigin::Package(name) => f.write_str(name),
    }
}

/// Writes as many `super` with `::` between.
fn write_supers<W: fmt::Write>(levels: usize, f: &mut fmt::Formatter<W>) -> fmt::Result
    requires { 0 < levels }
    ensures { let text = plain.origin_text (plain.relative levels) in
        DisplaysOnOk W.write_str_gives f.old result (Some text) f.new }
{
    f.write_str("super")?;
    'levels: for _ in 1..levels {
        f.write_str("::super")?;
    }
    Ok(())
}

/// Returns a copy of a list of names, unless allocation fails.
pub fn clone_names(alloc: Global, names: &[String]) -> Result<Vec<String>, AllocError>
    ensures { IfOk result (λ copy. map string_bytes copy.items ≡ map string_bytes names.now) }
{
    Vec::from_clones(alloc, names)
}
