//! Copies that ask for memory.

ghost use Rattle.std.specs.Prelude.{◌≡◌, IfOk};
ghost use Rattle.wgsl_span.specs.Spanned.{spanned_node, spanned_span};
ghost use Rattle.wgsl_span.specs.Copies.{OptionCopies, ListCopies};

use crate::Spanned;
use std::alloc::{AllocError, Global};

/// A value that is copied with an allocator.
pub trait CloneWith: Sized + Drop {
    // The second is equal to the first field by field, spans included.
    ghost copies: { Self → Self → Type 0 };

    /// Returns a copy, unless allocation fails.
    fn clone_with(&self, alloc: Global) -> Result<Self, AllocError>
        ensures copy { IfOk result (λ copy. copies self.now copy) };
}

impl<T: CloneWith> CloneWith for Spanned<T> {
    ghost copies = { λ s copy. (spanned_span copy ≡ spanned_span s) × T.copies (spanned_node s) (spanned_node copy) };

    fn clone_with(&self, alloc: Global) -> Result<Self, AllocError> {
        Spanned::new(alloc, self.node.clone_with(alloc)?, self.span)
    }
}

impl<T: CloneWith> Spanned<T> {
    /// Returns a copy, unless allocation fails.
    pub fn clone(&self, alloc: Global) -> Result<Self, AllocError>
        ensures span { IfOk result (λ copy. spanned_span copy ≡ spanned_span self.now) }
        ensures node { IfOk result (λ copy. T.copies (spanned_node self.now) (spanned_node copy)) }
    {
        self.clone_with(alloc)
    }
}

impl<T: CloneWith> CloneWith for Option<T> {
    ghost copies = { λ option copy. OptionCopies T.copies option copy };

    fn clone_with(&self, alloc: Global) -> Result<Self, AllocError> {
        match self {
            None => Ok(None),
            Some(item) => Ok(Some(item.clone_with(alloc)?)),
        }
    }
}

impl<T: CloneWith> CloneWith for Vec<T> {
    ghost copies = { λ items copy. ListCopies T.copies items.items copy.items };

    fn clone_with(&self, alloc: Global) -> Result<Self, AllocError> {
        let mut copied = Vec::with_capacity(alloc, self.len())?;
        'items: for item in self {
            copied.push(item.clone_with(alloc)?)?;
        }
        Ok(copied)
    }
}
