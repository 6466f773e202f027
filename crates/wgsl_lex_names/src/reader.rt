//! What happens to names at each token.

ghost use Rattle.std.specs.Prelude.{◌≡◌, ◌++◌, [], ◌∷◌, map, OnOk};
ghost use Rattle.std.specs.Option.{option_map};
ghost use Rattle.wgsl_lex_token.specs.View.{class_of_kind};
ghost use Rattle.wgsl_model_places.specs.Items as items;
ghost use Rattle.wgsl_model_places.specs.Roles as roles;
ghost use Rattle.wgsl_model_places.specs.Signs as signs;
ghost use Rattle.wgsl_model_places.specs.Steps as plain;
ghost use Rattle.wgsl_lex_names.specs.View.{bracket_view, declared_view, entries_view, event_view, last_view, name_view, role_view, sign_view, state_view};
ghost use Rattle.wgsl_lex_names.specs.Readers.{happened, Adds, Passes};

use crate::item::{Bracket, Item};
use crate::role::{Declared, Entry, Event, Name, Role};
use crate::sign::{Sign, is_name, sign_of};
use crate::state::{Last, State, role_of};
use std::alloc::{AllocError, Global};
use wgsl_lex_token::kind::TokenKind;

/// What happened at the tokens so far, and what is known after them.
#[derive(Drop)]
pub struct Reader<'s> {
    alloc: Global,
    state: State<'s>,
    events: Vec<Event<'s>>,
}

impl<'s> Reader<'s> {
    /// Returns a reader that read nothing.
    pub fn new(alloc: Global) -> Reader<'s>
        ensures events { happened result ≡ [] }
        ensures state { state_view result.state ≡ items.start }
    {
        Reader {
            alloc,
            state: State::new(alloc),
            events: Vec::new(alloc),
        }
    }

    fn put(&mut self, event: Event<'s>) -> Result<(), AllocError>
        ensures { OnOk result (Adds self.old (event_view event.entry ∷ []) self.new) }
    {
        self.events.push(event)?;
        Ok(())
    }

    /// Puts what comes into scope in brackets.
    fn put_entry(&mut self, bracket: Bracket, entry: Option<Entry<'s>>) -> Result<(), AllocError>
        ensures { OnOk result (Adds self.old
            (plain.entered (bracket_view bracket) (entries_view entry.entry)) self.new) }
    {
        let Some(entry) = entry else {
            return Ok(());
        };
        match bracket {
            Bracket::Outermost => self.put(Event::InModule(entry)),
            _ => self.put(Event::InScope(entry)),
        }
    }

    /// Ends an item, and begins the next one.
    fn end_item(&mut self) -> Result<(), AllocError>
        ensures { OnOk result (Passes self.old plain.ended self.new) }
    {
        let bracket = self.state.bracket;
        let entry = self.state.item.entry();
        self.put_entry(bracket, entry)?;
        self.state.set_item(Item::first(bracket, Role::Uses));
        Ok(())
    }

    /// Starts the scope of a function with its parameters, if that is next.
    fn start_function(&mut self) -> Result<(), AllocError>
        ensures { OnOk result (Passes self.old plain.function_entered self.new) }
    {
        let Bracket::FunctionBody = self.state.item.next else {
            return Ok(());
        };
        self.put(Event::ScopeStart)?;
        let parameters = self.state.take_waiting(self.alloc);
        'parameters: for entry in parameters {
            self.put(Event::InScope(entry))?;
        }
        Ok(())
    }

    /// Passes over the name of an attribute.
    fn attribute(&mut self, name: Name<'s>) -> Result<(), AllocError>
        ensures { OnOk result (Passes self.old (plain.at_attribute (name_view name.entry)) self.new) }
    {
        self.put(Event::Named(Role::Word, name))?;
        self.state.attribute(name.text);
        Ok(())
    }

    /// Passes over any other name.
    fn name(&mut self, name: Name<'s>) -> Result<(), AllocError>
        ensures { OnOk result (Passes self.old (plain.at_name (name_view name.entry)) self.new) }
    {
        let item = self.state.item;
        let role = role_of(self.state.last, item.awaited, item.role);
        self.put(Event::Named(role, name))?;
        self.state.name(role, name);
        Ok(())
    }

    /// Passes over a `(`.
    fn open(&mut self) -> Result<(), AllocError>
        ensures { OnOk result (Passes self.old plain.at_opening self.new) }
    {
        let item = self.state.item;
        if let Last::Attribute(role) = self.state.last {
            return self.state.start_bracket(Bracket::Arguments, role, item);
        }
        match item.next {
            Bracket::Parameters => {
                self.state
                    .start_bracket(Bracket::Parameters, Role::Uses, item.gone_on())
            }
            Bracket::Header => {
                self.put(Event::ScopeStart)?;
                self.state
                    .start_bracket(Bracket::Header, Role::Uses, item.gone_on())
            }
            _ => self.open_list(),
        }
    }

    /// Passes over the start of a template list, or a `(` like it.
    fn open_list(&mut self) -> Result<(), AllocError>
        ensures { OnOk result (Passes self.old plain.at_list_opening self.new) }
    {
        let item = self.state.item;
        self.state
            .start_bracket(Bracket::Others, item.role, item.gone_on())
    }

    /// Passes over a `)`, or the end of a template list.
    fn close(&mut self) -> Result<(), AllocError>
        ensures { OnOk result (Passes self.old plain.at_closing self.new) }
    {
        let entry = self.state.item.entry();
        match self.state.bracket {
            Bracket::Parameters => {
                self.state.wait(entry)?;
                self.state.end_bracket();
                self.state.item.next = Bracket::FunctionBody;
            }
            Bracket::Header => {
                self.put_entry(Bracket::Header, entry)?;
                self.state.end_bracket();
                self.state.item.next = Bracket::InnerBody;
            }
            _ => self.state.end_bracket(),
        }
        Ok(())
    }

    /// Starts braces, after which the item goes on with a block.
    fn start_braces(&mut self, bracket: Bracket) -> Result<(), AllocError>
        ensures { OnOk result (Passes self.old (plain.in_braces (bracket_view bracket)) self.new) }
    {
        let item = Item {
            next: Bracket::Block,
            ..self.state.item.gone_on()
        };
        self.state.start_bracket(bracket, Role::Uses, item)
    }

    /// Passes over a `{`, after the scope of its function was started.
    fn start_block(&mut self) -> Result<(), AllocError>
        ensures { OnOk result (Passes self.old plain.at_block_start self.new) }
    {
        match self.state.item.next {
            Bracket::Members => self.start_braces(Bracket::Members),
            Bracket::Clauses => self.start_braces(Bracket::Clauses),
            Bracket::InnerBody => {
                self.put(Event::ScopeStart)?;
                self.start_braces(Bracket::InnerBody)
            }
            _ => {
                self.put(Event::ScopeStart)?;
                self.start_braces(Bracket::Block)
            }
        }
    }

    /// Ends the scopes that end with the bracket.
    fn end_scopes(&mut self) -> Result<(), AllocError>
        ensures { OnOk result (Adds self.old
            (plain.scopes_ended (bracket_view self.old.state.bracket)) self.new) }
    {
        match self.state.bracket {
            Bracket::Block => self.put(Event::ScopeEnd),
            Bracket::InnerBody => {
                self.put(Event::ScopeEnd)?;
                self.put(Event::ScopeEnd)
            }
            _ => Ok(()),
        }
    }

    /// Passes over a `}`, where an `else` is next or not.
    fn end_block(&mut self, goes_on: bool) -> Result<(), AllocError>
        ensures { OnOk result (Passes self.old (plain.at_block_end goes_on) self.new) }
    {
        self.end_scopes()?;
        self.state.end_bracket();
        if goes_on {
            return Ok(());
        }
        self.end_item()
    }

    /// Passes over a `,`.
    fn comma(&mut self) -> Result<(), AllocError>
        ensures { OnOk result (Passes self.old plain.at_comma self.new) }
    {
        match self.state.bracket {
            Bracket::Parameters => {
                let entry = self.state.item.entry();
                self.state.wait(entry)?;
                self.state
                    .set_item(Item::first(Bracket::Parameters, Role::Uses));
            }
            Bracket::Members => self
                .state
                .set_item(Item::first(Bracket::Members, Role::Uses)),
            _ => self.state.go_on(),
        }
        Ok(())
    }

    /// Goes on with an item that is no statement, so it is no alternative.
    fn no_statement(&mut self, role: Role)
        ensures { Passes self.old (plain.at_no_statement (role_view role)) self.new }
    {
        let item = self.state.item.gone_on();
        self.state.set_item(Item {
            branch: None,
            role,
            ..item
        });
    }

    /// Passes over `break`, before `if` or not.
    fn meet_break(&mut self, before_if: bool)
        ensures { Passes self.old (plain.at_break before_if) self.new }
    {
        if before_if {
            let role = self.state.item.role;
            self.no_statement(role);
        } else {
            self.state.go_on();
        }
    }

    /// Goes on with what an item declares, and what is in its next bracket.
    fn head(&mut self, awaited: Option<Declared>, next: Bracket)
        ensures { Passes self.old (plain.at_head (option_map declared_view awaited) (bracket_view next)) self.new }
    {
        let item = self.state.item.gone_on();
        self.state.set_item(Item {
            awaited,
            next,
            ..item
        });
    }

    /// Passes over a token with a sign, where a token of this kind is next.
    fn sign(&mut self, sign: Sign, next: Option<TokenKind>) -> Result<(), AllocError>
        ensures { OnOk result (Passes self.old (plain.at_sign_of (sign_view sign)
            (option_map class_of_kind next)) self.new) }
    {
        match sign {
            Sign::At => {
                self.start_function()?;
                self.state.last = Last::At;
            }
            Sign::Period => {
                self.state.go_on();
                self.state.last = Last::Period;
            }
            Sign::Semicolon => self.end_item()?,
            Sign::Comma => self.comma()?,
            Sign::Opening => self.open()?,
            Sign::ListOpening => self.open_list()?,
            Sign::Closing => self.close()?,
            Sign::BlockStart => {
                self.start_function()?;
                self.start_block()?;
            }
            Sign::BlockEnd => self.end_block(is_kind(TokenKind::KwElse, next))?,
            Sign::Heads(awaited, next) => self.head(awaited, next),
            Sign::Directive => self.no_statement(Role::Word),
            Sign::NoStatement => {
                let role = self.state.item.role;
                self.no_statement(role);
            }
            Sign::Break => self.meet_break(is_kind(TokenKind::KwIf, next)),
            Sign::None => self.state.go_on(),
        }
        Ok(())
    }

    /// Returns whether the next token, of this kind, is a name, or the name of an attribute.
    pub fn takes_name(&self, kind: TokenKind) -> bool
        ensures { result ≡ plain.takes_name (last_view self.now.state.last) (class_of_kind kind) }
    {
        match self.state.last {
            Last::At => true,
            _ => is_name(kind),
        }
    }

    /// Passes over such a token.
    pub fn pass_name(&mut self, name: Name<'s>) -> Result<(), AllocError>
        ensures { OnOk result (Passes self.old (plain.at_any_name (name_view name.entry)) self.new) }
    {
        match self.state.last {
            Last::At => self.attribute(name),
            _ => self.name(name),
        }
    }

    /// Passes over any other token of a kind, where a token of the other kind is next.
    pub fn pass(&mut self, kind: TokenKind, next: Option<TokenKind>) -> Result<(), AllocError>
        ensures { OnOk result (Passes self.old (plain.at_sign_of (signs.sign_of (class_of_kind kind))
            (option_map class_of_kind next)) self.new) }
    {
        self.sign(sign_of(kind), next)
    }

    /// Returns what happened.
    pub fn into_events(self) -> Vec<Event<'s>>
        ensures { map event_view result.items ≡ happened self.entry }
    {
        self.events
    }
}

/// Returns whether a kind is this one.
fn is_kind(kind: TokenKind, next: Option<TokenKind>) -> bool
    ensures { result ≡ signs.is_class (class_of_kind kind) (option_map class_of_kind next) }
{
    match next {
        Some(next) => next as u8 == kind as u8,
        None => false,
    }
}
