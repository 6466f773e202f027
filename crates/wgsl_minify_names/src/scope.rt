//! The names in scope in a list of occurrences.

ghost use Rattle.std.specs.Prelude.{◌≡◌, OnOk};
ghost use Rattle.std.specs.Option.{option_to_list};
ghost use Rattle.wgsl_minify_names.specs.InScope.{declared_view, no_scopes, past, same_name};
ghost use Rattle.wgsl_minify_names.specs.InScope.{scopes_view, staying_at, staying_own};
ghost use Rattle.wgsl_minify_names.specs.InScope.{with_alternative, with_declaration};
ghost use Rattle.wgsl_minify_names.specs.View.{branch_view, name_view, occurrence_view, texts};

use crate::set::has;
use indexmap::IndexSet;
use std::alloc::{AllocError, Global};
use wgsl_tree_names::{Branch, Occurrence};

/// The names in scope in a part of a module that are declared whatever the conditions, and the name
/// that each alternative since the last `@if` declares; and where each open scope started, how many
/// names these were, and the name in each alternative.
#[derive(Drop)]
pub struct Scopes<'t> {
    in_scope: IndexSet<&'t str>,
    in_each: Option<&'t str>,
    starts: Vec<(usize, Option<&'t str>)>,
}

/// Returns the name that two are, if it is one name.
fn same_name<'t>(first: Option<&'t str>, second: Option<&'t str>) -> Option<&'t str>
    ensures { name_view result ≡ same_name (name_view first.entry) (name_view second.entry) }
{
    let first = first?;
    if first == second? {
        return Some(first);
    }
    None
}

impl<'t> Scopes<'t> {
    /// Returns the scopes before the first name of a module.
    pub fn new(alloc: Global) -> Scopes<'t>
        ensures { scopes_view result ≡ no_scopes }
    {
        Scopes {
            in_scope: IndexSet::new(alloc),
            in_each: None,
            starts: Vec::new(alloc),
        }
    }

    /// Returns a declared name that stays: with `locals` one that is declared in no scope.
    fn staying_own(&self, name: Option<&'t str>, locals: bool) -> Option<&'t str>
        ensures { texts (option_to_list result)
            ≡ staying_own locals (scopes_view self.now) (name_view name.entry) }
    {
        if locals && self.starts.is_empty() {
            return name;
        }
        None
    }

    /// Returns the name that stays at an occurrence: one that may refer to something outside of the
    /// module, or of which it is not known what it refers to. With `locals` also one that is
    /// declared in no scope.
    pub fn staying(&self, occurrence: Occurrence<'t>, locals: bool) -> Option<&'t str>
        ensures { texts (option_to_list result)
            ≡ staying_at locals (scopes_view self.now) (occurrence_view occurrence.entry) }
    {
        match occurrence {
            Occurrence::Use(name) => {
                if has(&self.in_scope, name) {
                    return None;
                }
                Some(name)
            }
            Occurrence::Unknown(name) => Some(name),
            Occurrence::Declaration(name) => self.staying_own(Some(name), locals),
            Occurrence::Alternative(_, name) => self.staying_own(name, locals),
            Occurrence::ScopeStart | Occurrence::ScopeEnd => None,
        }
    }

    /// Goes over a declaration, if there is one, that is there whatever the conditions.
    fn declare(&mut self, name: Option<&'t str>) -> Result<(), AllocError>
        ensures declared { OnOk result (declared_view self.new
            ≡ with_declaration (name_view name.entry) (declared_view self.old)) }
        ensures starts { self.new.starts ≡ self.old.starts }
    {
        self.in_each = None;
        if let Some(name) = name {
            self.in_scope.insert(name)?;
        }
        Ok(())
    }

    /// Goes over what is there under a condition, with the name that it declares.
    fn meet_alternative(&mut self, branch: Branch, name: Option<&'t str>) -> Result<(), AllocError>
        ensures declared { OnOk result (declared_view self.new ≡ with_alternative
            (branch_view branch) (name_view name.entry) (declared_view self.old)) }
        ensures starts { self.new.starts ≡ self.old.starts }
    {
        match branch {
            Branch::If => self.in_each = name,
            Branch::Elif => self.in_each = same_name(self.in_each, name),
            Branch::Else => self.declare(same_name(self.in_each, name))?,
            Branch::Several => self.in_each = None,
        }
        Ok(())
    }

    /// Goes over an occurrence: a declaration is in scope from there on, to the end of its scope.
    pub fn meet(&mut self, occurrence: Occurrence<'t>) -> Result<(), AllocError>
        ensures { OnOk result
            (scopes_view self.new ≡ past (scopes_view self.old) (occurrence_view occurrence.entry)) }
    {
        match occurrence {
            Occurrence::Use(_) | Occurrence::Unknown(_) => Ok(()),
            Occurrence::Declaration(name) => self.declare(Some(name)),
            Occurrence::Alternative(branch, name) => self.meet_alternative(branch, name),
            Occurrence::ScopeStart => {
                self.starts.push((self.in_scope.len(), self.in_each))?;
                Ok(())
            }
            Occurrence::ScopeEnd => {
                if let Some((start, in_each)) = self.starts.pop() {
                    self.in_scope.truncate(start);
                    self.in_each = in_each;
                }
                Ok(())
            }
        }
    }
}
