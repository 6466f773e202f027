//! What is in scope, and what uses of names refer to.

ghost use Rattle.std.specs.Prelude.{◌≡◌, ◌-◌, ◌++◌, [], ◌∷◌, Bool, List, None, Some, false, length, map, reverse, suc, take, IfOk, OnOk};
ghost use Rattle.std.specs.Bool.{Decides};
ghost use Rattle.std.specs.Option.{option_map, option_to_list};
ghost use Rattle.wgsl_lex_names.specs.View.{branch_view, entry_view, event_view, name_view, role_view};
ghost use Rattle.wgsl_model_names.specs.Scopes as plain;
ghost use Rattle.wgsl_model_minify.specs.Occurrences as occurrences;
ghost use Rattle.wgsl_model_places.specs.Places as places;
ghost use Rattle.wgsl_resolve_names.specs.Linked.{beside_view, in_scope, last_of, referents_at, referents_beside, referents_by, referents_view};
ghost use Rattle.wgsl_resolve_names.specs.Known.{Declares, Finds, IsRight, Knows, Passes, RefersByUses, SetsLast, declared_names, found_names};

use indexmap::IndexMap;
use std::alloc::{AllocError, Global};
use wgsl_lex_names::{Branch, Entry, Event, Name, Role};

/// What a use of a name refers to.
#[derive(Clone, Copy)]
pub enum Referent<'s> {
    /// A declaration of the module, by its number.
    Declaration(usize),
    /// What has this name outside of the module.
    Outside(&'s str),
}

/// A name with what it is.
#[derive(Drop)]
pub struct Named<'s> {
    pub role: Role,
    pub name: Name<'s>,
    /// What a use of the name may refer to, the nearest declaration first; nothing for a name that
    /// is no use.
    pub referents: Vec<Referent<'s>>,
}

/// What is in scope by a declaration, or by an alternative that may declare nothing.
#[derive(Clone, Copy)]
pub(crate) struct Link<'s> {
    entry: Entry<'s>,
    /// How many declarations are before it.
    number: usize,
    /// Where the last one before it is that declares the same name.
    previous: Option<usize>,
}

/// What is in scope, the first first; where the last one is that declares a name; how many were in
/// scope where each open scope started; all declarations and all names so far.
#[derive(Drop)]
pub(crate) struct Resolver<'s> {
    alloc: Global,
    links: Vec<Link<'s>>,
    last: IndexMap<&'s str, Option<usize>>,
    starts: Vec<usize>,
    pub(crate) declarations: Vec<Name<'s>>,
    pub(crate) names: Vec<Named<'s>>,
}

/// Returns whether the alternatives from one on declare the name that it declares, where those after
/// it do or not; nothing where a use of the name refers to nothing before it.
fn beside(branch: Option<Branch>, each: bool) -> Option<bool>
    ensures { (others : Bool → List plain.Referent) →
        beside_view result others ≡ plain.beside (option_map branch_view branch) each others }
{
    match branch {
        None => None,
        Some(Branch::If) => {
            if each {
                return None;
            }
            Some(false)
        }
        Some(Branch::Elif) => Some(each),
        Some(Branch::Else) => Some(true),
        Some(Branch::Several) => Some(false),
    }
}

/// Returns whether a place is the one just before another.
fn is_just_before(previous: Option<usize>, place: usize) -> bool
    ensures { Decides result (option_map suc previous ≡ Some place) }
{
    match previous {
        Some(previous) => previous < place && place - previous == 1,
        None => false,
    }
}

impl<'s> Resolver<'s> {
    /// Returns a resolver that met nothing.
    pub(crate) fn new(alloc: Global) -> Resolver<'s>
        ensures known { Knows result (plain.nothing_known, []) }
        ensures declared { declared_names result ≡ [] }
        ensures names { found_names result ≡ [] }
        ensures others { RefersByUses result }
    {
        Resolver {
            alloc,
            links: Vec::new(alloc),
            last: IndexMap::new(alloc),
            starts: Vec::new(alloc),
            declarations: Vec::new(alloc),
            names: Vec::new(alloc),
        }
    }

    /// Returns where the last entry is that declares a name.
    fn last_of(&self, name: &'s str) -> Option<usize>
        ensures { result ≡ last_of self.now.last.entries name.now }
    {
        self.last.get(&name).copied().flatten()
    }

    /// Adds a name that is declared, and returns where the last entry is that declares it.
    fn declare(&mut self, name: Name<'s>) -> Result<Option<usize>, AllocError>
        ensures previous { IfOk result (λ previous.
            previous ≡ last_of self.old.last.entries name.entry.text.now) }
        ensures last { OnOk result (SetsLast self.old name.entry.text.now
            (Some (length self.old.links.items)) self.new) }
        ensures declared { OnOk result (self.new.declarations.items
            ≡ self.old.declarations.items ++ name.entry ∷ []) }
        ensures links { self.new.links ≡ self.old.links }
        ensures starts { self.new.starts ≡ self.old.starts }
        ensures names { self.new.names ≡ self.old.names }
    {
        let place = self.links.len();
        let previous = self.last.insert(name.text, Some(place))?;
        self.declarations.push(name)?;
        Ok(previous.flatten())
    }

    /// Goes over what is there under a condition, or not, and declares nothing.
    fn alternative(&mut self, entry: Entry<'s>, number: usize) -> Result<(), AllocError>
        requires none { entry.name ≡ None }
        requires number { number ≡ length self.old.declarations.items }
        ensures known { OnOk result (Passes self.old
            (places.entry_occurs (entry_view entry.entry).branch None) self.new) }
        ensures declarations { self.new.declarations ≡ self.old.declarations }
        ensures names { self.new.names ≡ self.old.names }
    {
        if entry.branch.is_none() {
            return Ok(());
        }
        self.links.push(Link {
            entry,
            number,
            previous: None,
        })?;
        Ok(())
    }

    /// Goes over what comes into scope.
    pub(crate) fn enter(&mut self, entry: Entry<'s>) -> Result<(), AllocError>
        ensures known { OnOk result (Passes self.old
            (places.entry_occurs (entry_view entry.entry).branch (entry_view entry.entry).name) self.new) }
        ensures declared { OnOk result (Declares self.old
            (option_to_list (entry_view entry.entry).name) self.new) }
        ensures names { self.new.names ≡ self.old.names }
    {
        let number = self.declarations.len();
        let Some(name) = entry.name else {
            return self.alternative(entry, number);
        };
        let previous = self.declare(name)?;
        self.links.push(Link {
            entry,
            number,
            previous,
        })?;
        Ok(())
    }

    /// Goes over the start of a scope.
    fn start_scope(&mut self) -> Result<(), AllocError>
        ensures known { OnOk result (Passes self.old (occurrences.scope_start ∷ []) self.new) }
        ensures declared { Declares self.old [] self.new }
        ensures names { self.new.names ≡ self.old.names }
    {
        let start = self.links.len();
        self.starts.push(start)?;
        Ok(())
    }

    /// Goes back to what is in scope without the last entry.
    fn forget(&mut self) -> Result<(), AllocError>
        ensures last { OnOk result (IsRight self.old → IsRight self.new) }
        ensures links { self.new.links.items
            ≡ take (length self.old.links.items - 1) self.old.links.items }
        ensures starts { self.new.starts ≡ self.old.starts }
        ensures declarations { self.new.declarations ≡ self.old.declarations }
        ensures names { self.new.names ≡ self.old.names }
    {
        let Some(link) = self.links.pop() else {
            return Ok(());
        };
        if let Some(name) = link.entry.name {
            self.last.insert(name.text, link.previous)?;
        }
        Ok(())
    }

    /// Goes over the end of a scope.
    fn end_scope(&mut self) -> Result<(), AllocError>
        ensures known { OnOk result (Passes self.old (occurrences.scope_end ∷ []) self.new) }
        ensures declared { Declares self.old [] self.new }
        ensures names { self.new.names ≡ self.old.names }
    {
        let Some(start) = self.starts.pop() else {
            return Ok(());
        };
        'links: while self.links.len() > start {
            self.forget()?;
        }
        Ok(())
    }

    /// Returns what a use of a name may refer to, the nearest declaration first.
    fn refer(&self, name: &'s str) -> Result<Vec<Referent<'s>>, AllocError>
        requires right { IsRight self.now }
        ensures { IfOk result (λ found. referents_view found.items
            ≡ plain.may_refer_to false (in_scope (reverse self.now.links.items)) name.now) }
    {
        let mut found = Vec::new(self.alloc);
        let mut next = self.last_of(name);
        let mut each = false;
        'links: while let Some(place) = next {
            let link = self.links[place];
            found.push(Referent::Declaration(link.number))?;
            let Some(beside) = beside(link.entry.branch, each) else {
                return Ok(found);
            };
            let at_once = is_just_before(link.previous, place);
            each = beside && at_once;
            next = link.previous;
        }
        found.push(Referent::Outside(name))?;
        Ok(found)
    }

    /// Returns what a name that is so may refer to.
    fn referents(&self, role: Role, name: &'s str) -> Result<Vec<Referent<'s>>, AllocError>
        requires right { IsRight self.now }
        ensures others { IfOk result (λ found.
            referents_beside (role_view role) (referents_view found.items) ≡ []) }
        ensures uses { IfOk result (λ found.
            referents_at (role_view role) (referents_view found.items)
            ≡ referents_by (role_view role) (in_scope (reverse self.now.links.items)) name.now) }
    {
        match role {
            Role::Uses => self.refer(name),
            Role::Unknown => {
                let mut found = Vec::new(self.alloc);
                found.push(Referent::Outside(name))?;
                Ok(found)
            }
            _ => Ok(Vec::new(self.alloc)),
        }
    }

    /// Goes over a name that is so.
    fn meet_name(&mut self, role: Role, name: Name<'s>) -> Result<(), AllocError>
        requires right { IsRight self.old }
        ensures known { OnOk result (Passes self.old
            (places.named_occurs (role_view role) (name_view name.entry)) self.new) }
        ensures declarations { self.new.declarations ≡ self.old.declarations }
        ensures names { OnOk result (Finds self.old
            ((role_view role, name_view name.entry) ∷ []) self.new) }
        ensures others { OnOk result (RefersByUses self.old → RefersByUses self.new) }
    {
        let referents = self.referents(role, name.text)?;
        self.names.push(Named {
            role,
            name,
            referents,
        })?;
        Ok(())
    }

    /// Goes over what comes into scope in the whole module, if this is what happens.
    pub(crate) fn meet_in_module(&mut self, event: Event<'s>) -> Result<(), AllocError>
        ensures known { OnOk result (Passes self.old
            (places.module_occurs (event_view event.entry)) self.new) }
        ensures declared { OnOk result (Declares self.old
            (places.module_declares (event_view event.entry)) self.new) }
        ensures names { self.new.names ≡ self.old.names }
    {
        match event {
            Event::InModule(entry) => self.enter(entry),
            _ => Ok(()),
        }
    }

    /// Goes over all else that happens at a token.
    pub(crate) fn meet(&mut self, event: Event<'s>) -> Result<(), AllocError>
        requires right { IsRight self.old }
        ensures known { OnOk result (Passes self.old
            (places.inner_occurs (event_view event.entry)) self.new) }
        ensures declared { OnOk result (Declares self.old
            (places.scope_declares (event_view event.entry)) self.new) }
        ensures names { OnOk result (Finds self.old
            (places.names_in (event_view event.entry)) self.new) }
        ensures others { OnOk result (RefersByUses self.old → RefersByUses self.new) }
    {
        match event {
            Event::Named(role, name) => self.meet_name(role, name),
            Event::InModule(_) => Ok(()),
            Event::InScope(entry) => self.enter(entry),
            Event::ScopeStart => self.start_scope(),
            Event::ScopeEnd => self.end_scope(),
        }
    }
}
