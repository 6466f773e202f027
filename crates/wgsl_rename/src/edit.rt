//! What happens to names where another is written at some places.

ghost use Rattle.std.specs.Prelude.{◌≡◌, map, IfOk};
ghost use Rattle.std.specs.Option.{option_map};
ghost use Rattle.wgsl_model_places.specs.Edited as plain;
ghost use Rattle.wgsl_lex_names.specs.View.{entry_view, event_view, name_view};
ghost use Rattle.wgsl_rename.specs.Edits.{IsEditAt, edit_view};

use indexmap::IndexSet;
use std::alloc::{AllocError, Global};
use wgsl_lex_names::{Entry, Event, Name};
use wgsl_span::Span;

/// A text that is written in place of the names that start at some places.
#[derive(Drop)]
pub(crate) struct Edit<'s> {
    starts: IndexSet<usize>,
    text: &'s str,
}

impl<'s> Edit<'s> {
    /// Returns the edit that writes a text at some places.
    pub(crate) fn new(alloc: Global, places: &[Span], text: &'s str) -> Result<Edit<'s>, AllocError>
        ensures { IfOk result (IsEditAt places.now text.now) }
    {
        let mut starts = IndexSet::new(alloc);
        'places: for place in places {
            starts.insert(place.start)?;
        }
        Ok(Edit { starts, text })
    }

    /// Returns a name with its new text.
    fn name(&self, name: Name<'s>) -> Name<'s>
        ensures { name_view result ≡ plain.new_name (edit_view self.now) (name_view name.entry) }
    {
        if self.starts.contains(&name.span.start) {
            return Name {
                text: self.text,
                span: name.span,
            };
        }
        name
    }

    /// Returns what comes into scope, with its new name.
    fn entry(&self, entry: Entry<'s>) -> Entry<'s>
        ensures { entry_view result ≡ plain.edited_entry (edit_view self.now) (entry_view entry.entry) }
    {
        match entry.name {
            None => entry,
            Some(name) => Entry {
                branch: entry.branch,
                name: Some(self.name(name)),
            },
        }
    }

    /// Returns what happens to the new name.
    fn event(&self, event: Event<'s>) -> Event<'s>
        ensures { event_view result ≡ plain.edited_event (edit_view self.now) (event_view event.entry) }
    {
        match event {
            Event::Named(role, name) => Event::Named(role, self.name(name)),
            Event::InModule(entry) => Event::InModule(self.entry(entry)),
            Event::InScope(entry) => Event::InScope(self.entry(entry)),
            Event::ScopeStart => Event::ScopeStart,
            Event::ScopeEnd => Event::ScopeEnd,
        }
    }

    /// Returns what happens to the new names.
    pub(crate) fn events(
        &self,
        alloc: Global,
        events: &[Event<'s>],
    ) -> Result<Vec<Event<'s>>, AllocError>
        ensures { IfOk result (λ edited. map event_view edited.items
            ≡ map (plain.edited_event (edit_view self.now)) (map event_view events.now)) }
    {
        let mut edited = Vec::new(alloc);
        'events: for event in events {
            edited.push(self.event(*event))?;
        }
        Ok(edited)
    }
}
