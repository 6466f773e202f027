//! How paths are joined.

ghost use Rattle.std.specs.Prelude.{◌≡◌, ◌↔◌, ◌++◌, IsTrue, IfOk, map, string_bytes};
ghost use Rattle.wgsl_model.specs.Trees.Paths as plain;
ghost use Rattle.wgsl_tree_path.specs.View.{origin_view, path_view, origin_after};

use crate::path::clone_names;
use crate::{ModulePath, PathOrigin};
use std::alloc::{AllocError, Global};

impl ModulePath {
    /// Adds components at the end.
    pub fn join(self, alloc: Global, names: Vec<String>) -> Result<Self, AllocError>
        ensures { IfOk result (λ path.
            path_view path ≡ plain.extended (path_view self) (map string_bytes names.items)) }
    {
        let ModulePath { origin, components } = self;
        let components = components.into_iter().chain(names).collect(alloc)?;
        Ok(ModulePath { origin, components })
    }

    /// Returns the path that the suffix means in the module that this path leads to. A package
    /// within a package is named by both, with `/` between, which no text of a path can say.
    pub fn join_path(&self, alloc: Global, suffix: &Self) -> Result<Self, AllocError>
        requires { plain.JoinFits (path_view self.now) (path_view suffix.now) }
        ensures { IfOk result (λ path.
            path_view path ≡ plain.join_paths (path_view self.now) (path_view suffix.now)) }
    {
        Ok(ModulePath {
            origin: self.joined_origin(alloc, &suffix.origin)?,
            components: self.joined_components(alloc, suffix)?,
        })
    }

    /// Returns whether the levels of the joined path fit: false where both paths are relative and
    /// their levels together are too many.
    pub fn join_fits(&self, suffix: &Self) -> bool
        ensures { IsTrue result ↔ plain.JoinFits (path_view self.now) (path_view suffix.now) }
    {
        match (&self.origin, &suffix.origin) {
            (PathOrigin::Relative(first), PathOrigin::Relative(second)) => {
                second.saturating_sub(self.components.len()) <= usize::MAX - *first
            }
            _ => true,
        }
    }

    fn joined_origin(&self, alloc: Global, suffix: &PathOrigin) -> Result<PathOrigin, AllocError>
        requires { plain.CountFits (origin_after self.now suffix.now) }
        ensures { IfOk result (λ origin. origin_view origin ≡ origin_after self.now suffix.now) }
    {
        match (&self.origin, suffix) {
            (PathOrigin::Package(name), PathOrigin::Package(inner)) => {
                Ok(PathOrigin::Package(format!(in alloc; "{name}/{inner}")?))
            }
            (PathOrigin::Package(_), _) => self.origin.clone(alloc),
            (PathOrigin::Relative(first), PathOrigin::Relative(second)) => Ok(PathOrigin::Relative(
                *first + second.saturating_sub(self.components.len()),
            )),
            (PathOrigin::Absolute, PathOrigin::Relative(_)) => Ok(PathOrigin::Absolute),
            _ => suffix.clone(alloc),
        }
    }

    fn joined_components(&self, alloc: Global, suffix: &Self) -> Result<Vec<String>, AllocError>
        ensures { let suffix_names = (path_view suffix.now).components in
            let kept = plain.kept (path_view self.now).components (origin_view suffix.now.origin) in
            IfOk result (λ names. map string_bytes names.items ≡ kept ++ suffix_names) }
    {
        let kept = match suffix.origin {
            PathOrigin::Relative(levels) => self.components.len().saturating_sub(levels),
            _ => 0,
        };
        let mut names = clone_names(alloc, &self.components[..kept])?;
        names.extend_with_clones(&suffix.components)?;
        Ok(names)
    }
}
