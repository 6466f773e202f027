//! The brackets that are open, and what is known of the item in each.

ghost use Rattle.std.specs.Prelude.{◌≡◌, map};
ghost use Rattle.std.specs.Option.{option_map, option_to_list};
ghost use Rattle.wgsl_model_places.specs.Items as plain;
ghost use Rattle.wgsl_lex_names.specs.View.{bracket_view, declared_view, entry_view, item_view, role_view};

use crate::role::{Branch, Declared, Entry, Name, Role};

/// What is in brackets, or in none.
#[derive(Clone, Copy)]
pub(crate) enum Bracket {
    /// In none: a module.
    Outermost,
    /// The parameters of a function.
    Parameters,
    /// The header of a `for`.
    Header,
    /// The arguments of an attribute.
    Arguments,
    /// The members of a structure.
    Members,
    /// The clauses of a `switch`.
    Clauses,
    /// Statements.
    Block,
    /// The statements of a function whose parameters are not in scope yet.
    FunctionBody,
    /// The same, before the type that the function returns.
    FunctionResult,
    /// Statements with a scope around them that has started.
    InnerBody,
    /// Other parentheses, or a template list.
    Others,
}

/// A directive, a declaration, a statement, a clause, a parameter or a member up to a token; in other
/// brackets all that is in them.
#[derive(Clone, Copy)]
pub(crate) struct Item<'s> {
    /// What a name in it is, if nothing else is said.
    pub(crate) role: Role,
    /// Whether more of it is there than attributes.
    pub(crate) begun: bool,
    /// The condition under which it is there.
    pub(crate) branch: Option<Branch>,
    /// What the next name is that it declares.
    pub(crate) awaited: Option<Declared>,
    /// The name that it declared.
    pub(crate) declared: Option<Name<'s>>,
    /// What is in its next bracket.
    pub(crate) next: Bracket,
}

impl Bracket {
    /// Returns what the next name of an item in these brackets declares.
    fn awaited(self) -> Option<Declared>
        ensures { option_map declared_view result ≡ plain.awaited_in (bracket_view self) }
    {
        match self {
            Bracket::Parameters => Some(Declared::Parameter),
            Bracket::Members => Some(Declared::Member),
            _ => None,
        }
    }

    /// Returns what is in the next bracket after more of an item.
    fn gone_on(self) -> Bracket
        ensures { bracket_view result ≡ plain.next_after (bracket_view self) }
    {
        match self {
            Bracket::FunctionResult => Bracket::FunctionBody,
            _ => self,
        }
    }
}

impl<'s> Item<'s> {
    /// Returns the first item in brackets, of which nothing is there.
    pub(crate) fn first(bracket: Bracket, role: Role) -> Item<'s>
        ensures { item_view result ≡ plain.first_item (bracket_view bracket) (role_view role) }
    {
        Item {
            role,
            begun: false,
            branch: None,
            awaited: bracket.awaited(),
            declared: None,
            next: Bracket::Block,
        }
    }

    /// Returns the item after a token that is in no attribute.
    pub(crate) fn gone_on(self) -> Item<'s>
        ensures { item_view result ≡ plain.gone_on (item_view self.entry) }
    {
        Item {
            begun: true,
            next: self.next.gone_on(),
            ..self
        }
    }

    /// Returns what comes into scope at its end.
    pub(crate) fn entry(self) -> Option<Entry<'s>>
        ensures { map entry_view (option_to_list result) ≡ plain.entries_of (item_view self.entry) }
    {
        if self.branch.is_none() && self.declared.is_none() {
            return None;
        }
        Some(Entry {
            branch: self.branch,
            name: self.declared,
        })
    }
}
