//! What is known up to a token.

ghost use Rattle.std.specs.Prelude.{◌≡◌, ◌++◌, map, OnOk};
ghost use Rattle.std.specs.Option.{option_map};
ghost use Rattle.wgsl_model_places.specs.Items as items;
ghost use Rattle.wgsl_model_places.specs.Steps as plain;
ghost use Rattle.wgsl_lex_names.specs.View.{around_view, bracket_view, branch_view, declared_view, entries_view, entry_view, item_view, last_view, name_view, role_view, state_view};

use crate::item::{Bracket, Item};
use crate::role::{Branch, Declared, Entry, Name, Role};
use crate::sign::{argument_role, branch_named};
use std::alloc::{AllocError, Global};

/// What the last token says of the next one.
#[derive(Clone, Copy)]
pub(crate) enum Last {
    /// It is the name of an attribute.
    At,
    /// It may begin the arguments of an attribute, in which names are this.
    Attribute(Role),
    /// It is a name after `.`.
    Period,
    Other,
}

/// What is known up to a token: the innermost bracket and its item, the others around it, the
/// outermost first, and the parameters of a function that are not in scope yet.
#[derive(Drop)]
pub(crate) struct State<'s> {
    pub(crate) last: Last,
    pub(crate) bracket: Bracket,
    pub(crate) item: Item<'s>,
    around: Vec<(Bracket, Item<'s>)>,
    waiting: Vec<Entry<'s>>,
}

/// Returns the condition after one more, which counts before more than attributes are there.
fn branch_after(begun: bool, before: Option<Branch>, one: Option<Branch>) -> Option<Branch>
    ensures { option_map branch_view result
        ≡ plain.branch_after begun (option_map branch_view before) (option_map branch_view one) }
{
    match (begun, before, one) {
        (true, _, _) | (_, _, None) => before,
        (false, None, _) => one,
        (false, Some(_), Some(_)) => Some(Branch::Several),
    }
}

/// Returns what a name is, by the last token and the item.
pub(crate) fn role_of(last: Last, awaited: Option<Declared>, role: Role) -> Role
    ensures { role_view result
        ≡ plain.role_of (last_view last) (option_map declared_view awaited) (role_view role) }
{
    match (last, awaited, role) {
        (Last::Period, _, Role::Word) => Role::Word,
        (Last::Period, _, _) => Role::Component,
        (_, Some(declared), _) => Role::Declares(declared),
        (_, None, _) => role,
    }
}

impl<'s> State<'s> {
    /// Returns what is known before the first token.
    pub(crate) fn new(alloc: Global) -> State<'s>
        ensures { state_view result ≡ items.start }
    {
        State {
            last: Last::Other,
            bracket: Bracket::Outermost,
            item: Item::first(Bracket::Outermost, Role::Uses),
            around: Vec::new(alloc),
            waiting: Vec::new(alloc),
        }
    }

    /// Goes on with another item; nothing is said of the next token.
    pub(crate) fn set_item(&mut self, item: Item<'s>)
        ensures { state_view self.new ≡ plain.with_item (item_view item.entry) (state_view self.old) }
    {
        self.last = Last::Other;
        self.item = item;
    }

    /// Goes on with more of the item.
    pub(crate) fn go_on(&mut self)
        ensures { state_view self.new ≡ plain.going_on (state_view self.old) }
    {
        let item = self.item.gone_on();
        self.set_item(item);
    }

    /// Starts a bracket, of which the item is so.
    pub(crate) fn start_bracket(
        &mut self,
        bracket: Bracket,
        role: Role,
        item: Item<'s>,
    ) -> Result<(), AllocError>
        ensures { OnOk result (state_view self.new ≡ plain.inside (bracket_view bracket)
            (role_view role) (item_view item.entry) (state_view self.old)) }
    {
        self.around.push((self.bracket, item))?;
        self.last = Last::Other;
        self.bracket = bracket;
        self.item = Item::first(bracket, role);
        Ok(())
    }

    /// Ends a bracket, and goes on in the item that it is in.
    pub(crate) fn end_bracket(&mut self)
        ensures { state_view self.new ≡ plain.outside (state_view self.old) }
    {
        self.last = Last::Other;
        if let Some((bracket, item)) = self.around.pop() {
            self.bracket = bracket;
            self.item = item;
        }
    }

    /// Lets what comes into scope at the end of a parameter wait for the body of its function.
    pub(crate) fn wait(&mut self, entry: Option<Entry<'s>>) -> Result<(), AllocError>
        ensures { OnOk result (state_view self.new ≡ plain.waits (entries_view entry.entry) (state_view self.old)) }
    {
        if let Some(entry) = entry {
            self.waiting.push(entry)?;
        }
        Ok(())
    }

    /// Returns the parameters that wait, which then wait no longer.
    pub(crate) fn take_waiting(&mut self, alloc: Global) -> Vec<Entry<'s>>
        ensures waiting { map entry_view result.items ≡ (state_view self.old).waiting }
        ensures state { state_view self.new ≡ plain.in_function (state_view self.old) }
    {
        self.item.next = Bracket::InnerBody;
        std::mem::replace(&mut self.waiting, Vec::new(alloc))
    }

    /// Goes on after the name of an attribute.
    pub(crate) fn attribute(&mut self, name: &str)
        ensures { state_view self.new ≡ plain.after_attribute name.now (state_view self.old) }
    {
        self.last = Last::Attribute(argument_role(name));
        self.item.branch = branch_after(self.item.begun, self.item.branch, branch_named(name));
    }

    /// Goes on after a name that is so.
    pub(crate) fn name(&mut self, role: Role, name: Name<'s>)
        ensures { state_view self.new ≡ plain.after_name (role_view role) (name_view name.entry) (state_view self.old) }
    {
        let mut item = self.item.gone_on();
        if let Role::Declares(_) = role {
            item.awaited = None;
            item.declared = Some(name);
        }
        self.set_item(item);
    }
}
