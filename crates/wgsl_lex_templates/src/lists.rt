//! The template lists that were found in a text.

ghost use Rattle.std.specs.Prelude.{◌≡◌, [], ◌∷◌, ◌++◌, IfOk, IsTrue, true};
ghost use Rattle.wgsl_lex_templates.specs.Spans.{end_from, is_before_all, are_backward};

use std::alloc::{AllocError, Global};
use wgsl_span::Span;

/// The spans of template lists, the one furthest left last.
#[derive(Debug, PartialEq, Drop)]
pub struct Lists {
    spans: Vec<Span>,
    ghost ordered: { IsTrue (are_backward spans.items) },
}

impl Lists {
    pub(crate) fn new(alloc: Global) -> Lists
        ensures { result.spans.items ≡ [] }
    {
        Lists {
            spans: Vec::new(alloc),
        }
    }

    pub(crate) fn clone(&self, alloc: Global) -> Result<Lists, AllocError>
        ensures { IfOk result (λ copy. copy.spans.items ≡ self.now.spans.items) }
    {
        let mut spans = Vec::new(alloc);
        spans.extend_from_slice(&self.spans)?;
        Ok(Lists { spans })
    }

    /// Where the list ends that starts at the place.
    pub(crate) fn end_of(&self, start: usize) -> Option<usize>
        ensures { result ≡ end_from self.now.spans.items start }
    {
        match self.spans.binary_search_by(|list| start.cmp(&list.start)) {
            Ok(at) => Some(self.spans[at].end),
            Err(_) => None,
        }
    }

    /// Adds a list that starts before all others.
    pub(crate) fn add(&mut self, list: Span) -> Result<(), AllocError>
        requires { is_before_all list.start self.old.spans.items ≡ true }
        ensures { IfOk result (λ _. self.new.spans.items ≡ self.old.spans.items ++ list ∷ []) }
    {
        self.spans.push(list)?;
        Ok(())
    }
}
