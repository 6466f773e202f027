//! Uses and declarations of names, collected from the end of a module to its start.

ghost use Rattle.std.specs.Prelude.{◌≡◌, ◌∷◌, [], IfOk, map};
ghost use Rattle.wgsl_tree_names.specs.Found.{collected, kind_view, occurrence_view, Collects};

use std::alloc::{AllocError, Global};

/// The condition under which something is in a module.
#[derive(Clone, Copy, Debug)]
pub enum Branch {
    /// That of `@if`.
    If,
    /// That of `@elif`.
    Elif,
    /// That of `@else`.
    Else,
    /// Several conditions at once.
    Several,
}

/// A use or a declaration of a name, or where a scope starts or ends.
#[derive(Clone, Copy, Debug)]
pub enum Occurrence<'t> {
    Use(&'t str),
    /// A name of which it is not known what it refers to.
    Unknown(&'t str),
    /// A declaration that is there whatever the conditions.
    Declaration(&'t str),
    /// What is there only under a condition: a declaration of this name, or what declares nothing.
    Alternative(Branch, Option<&'t str>),
    ScopeStart,
    ScopeEnd,
}

/// What is known of the names of an expression.
#[derive(Clone, Copy)]
pub(crate) enum Kind {
    /// They are uses.
    Use,
    /// It is not known what they refer to.
    Unknown,
}

/// What is met from some place of a module to its end, the last first.
#[derive(Drop)]
pub(crate) struct Collected<'t> {
    from_end: Vec<Occurrence<'t>>,
}

impl<'t> Collected<'t> {
    /// Creates what is met after the end of a module.
    pub(crate) fn new(alloc: Global) -> Self
        ensures { collected result ≡ [] }
    {
        Collected {
            from_end: Vec::new(alloc),
        }
    }

    /// Puts what is met next before what was.
    #[tactic(auto, using(crate::proofs::Reversed::pushed))]
    pub(crate) fn put(&mut self, occurrence: Occurrence<'t>) -> Result<(), AllocError>
        ensures { IfOk result (λ _.
            collected self.new ≡ occurrence_view occurrence.entry ∷ collected self.old) }
    {
        Ok(self.from_end.push(occurrence)?)
    }

    /// Puts a name of a kind before what was.
    pub(crate) fn put_name(&mut self, kind: Kind, name: &'t str) -> Result<(), AllocError>
        ensures { IfOk result (λ _. Collects (kind_view kind name.entry.now) self.old self.new) }
    {
        self.put(match kind {
            Kind::Use => Occurrence::Use(name),
            Kind::Unknown => Occurrence::Unknown(name),
        })
    }

    /// Returns what is met, the first first.
    #[tactic(auto, using(crate::proofs::Reversed::turned))]
    pub(crate) fn into_list(self) -> Vec<Occurrence<'t>>
        ensures { map occurrence_view result.items ≡ collected self.entry }
    {
        let mut list = self.from_end;
        list.reverse();
        list
    }
}
