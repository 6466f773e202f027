//! What was found of the `<` of a source that were tried.

ghost use Rattle.std.specs.Prelude.{◌≡◌, ⊤, [], ◌∷◌, ◌++◌, IfOk, MatchOption};
ghost use Rattle.wgsl_lex_templates.specs.Findings.{IsEntry};

use std::alloc::{AllocError, Global};

/// What a `<` is to the lists around it that take it for an operator, or for the end of one.
#[derive(Clone, Copy)]
pub(crate) enum Finding {
    /// It begins no list, and none is around it.
    Around,
    /// It begins a list, whose `>` is at the place, or none. A list around it goes on there, after
    /// a stretch of the kinds that are kept; where the `<` begins none, one in whose brackets it
    /// is.
    GoesOn {
        is_list: bool,
        place: usize,
        start: usize,
        end: usize,
    },
}

/// What was found of the `<` at a place.
#[derive(Clone, Copy)]
struct Entry {
    start: usize,
    finding: Finding,
}

/// What was found of each, the one furthest left last.
#[derive(Drop)]
pub(crate) struct Findings {
    entries: Vec<Entry>,
}

impl Findings {
    pub(crate) fn new(alloc: Global) -> Findings
        ensures { result.entries.items ≡ [] }
    {
        Findings {
            entries: Vec::new(alloc),
        }
    }

    /// What was found of the `<` at a place.
    pub(crate) fn at(&self, start: usize) -> Option<Finding>
        ensures { MatchOption result ⊤ (λ finding. IsEntry self.now.entries.items start finding) }
    {
        match self
            .entries
            .binary_search_by(|entry| start.cmp(&entry.start))
        {
            Ok(at) => Some(self.entries[at].finding),
            Err(_) => None,
        }
    }

    /// Adds what was found of a `<` before all others.
    pub(crate) fn add(&mut self, start: usize, finding: Finding) -> Result<(), AllocError>
        ensures { IfOk result (λ _. self.new.entries.items
            ≡ self.old.entries.items ++ record { start = start; finding = finding } ∷ []) }
    {
        self.entries.push(Entry { start, finding })?;
        Ok(())
    }
}
