//! What the uses of names refer to, from what happens to names.

ghost use Rattle.std.specs.Prelude.{map, IfOk};
ghost use Rattle.wgsl_lex_names.specs.View.{event_view};
ghost use Rattle.wgsl_resolve_names.specs.Found.{AreNames};

use crate::scope::{Named, Resolver};
use std::alloc::{AllocError, Global};
use wgsl_lex_names::{Event, Name};

/// The names of a module, in the order of its tokens, and its declarations.
#[derive(Drop)]
pub struct Names<'s> {
    pub names: Vec<Named<'s>>,
    /// The declared names, each at its number: first those in scope in the whole module, then those
    /// in scopes.
    pub declarations: Vec<Name<'s>>,
}

/// Returns the names of a module, by what happens to names at its tokens. The time grows with the
/// number of events, if each name is declared under few conditions.
pub fn resolve<'s>(alloc: Global, events: &[Event<'s>]) -> Result<Names<'s>, AllocError>
    ensures { IfOk result (AreNames (map event_view events.now)) }
{
    let mut resolver = Resolver::new(alloc);
    'module: for event in events {
        resolver.meet_in_module(*event)?;
    }
    'others: for event in events {
        resolver.meet(*event)?;
    }
    Ok(Names {
        names: resolver.names,
        declarations: resolver.declarations,
    })
}
