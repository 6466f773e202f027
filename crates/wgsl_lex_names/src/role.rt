//! What a name is, and what happens to names from one token to the next.

use wgsl_span::Span;

/// What is declared.
#[derive(Clone, Copy)]
pub enum Declared {
    Function,
    Parameter,
    Structure,
    Member,
    Alias,
    Constant,
    Override,
    Variable,
    Let,
}

/// What a name is.
#[derive(Clone, Copy)]
pub enum Role {
    /// The name of what is declared here.
    Declares(Declared),
    /// A use of what is in scope, or of what is outside of the module.
    Uses,
    /// A name in arguments that the library does not know, or in a condition.
    Unknown,
    /// After `.`: a member of a structure, or components of a vector.
    Component,
    /// A word that has its meaning from where it is, as the name of an attribute.
    Word,
}

/// A name and where it is.
#[derive(Clone, Copy)]
pub struct Name<'s> {
    pub text: &'s str,
    pub span: Span,
}

/// The condition under which something is there.
#[derive(Clone, Copy)]
pub enum Branch {
    If,
    Elif,
    Else,
    /// Several of these at once.
    Several,
}

/// What comes into scope: a declaration, or what is there only under a condition, also if it
/// declares nothing.
#[derive(Clone, Copy)]
pub struct Entry<'s> {
    pub branch: Option<Branch>,
    pub name: Option<Name<'s>>,
}

/// What happens to names at a token.
#[derive(Clone, Copy)]
pub enum Event<'s> {
    /// A name is there.
    Named(Role, Name<'s>),
    /// Something is in scope in the whole module.
    InModule(Entry<'s>),
    /// Something is in scope from here to the end of the scope that started last.
    InScope(Entry<'s>),
    ScopeStart,
    ScopeEnd,
}
