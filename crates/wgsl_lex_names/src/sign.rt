//! What tokens say of names, by their kinds, and attributes by their names.

ghost use Rattle.std.specs.Prelude.{◌≡◌};
ghost use Rattle.std.specs.Option.{option_map};
ghost use Rattle.wgsl_model_places.specs.Signs as plain;
ghost use Rattle.wgsl_lex_token.specs.View.{class_of_kind};
ghost use Rattle.wgsl_lex_names.specs.View.{branch_view, role_view, sign_view};

use crate::item::Bracket;
use crate::role::{Branch, Declared, Role};
use wgsl_lex_token::kind::TokenKind;

/// What a token that is no name says of names.
#[derive(Clone, Copy)]
pub(crate) enum Sign {
    At,
    Period,
    Semicolon,
    Comma,
    Opening,
    /// The start of a template list.
    ListOpening,
    /// `)`, or the end of a template list.
    Closing,
    BlockStart,
    BlockEnd,
    /// The next name is what this declares, and this is in the next bracket.
    Heads(Option<Declared>, Bracket),
    /// Names are words up to the end of the directive.
    Directive,
    /// What begins so is no statement: `case`, `default`, `continuing`.
    NoStatement,
    /// `break`, which before `if` begins no statement either.
    Break,
    None,
}

/// Returns what a kind of token says.
pub(crate) fn sign_of(kind: TokenKind) -> Sign
    ensures { sign_view result ≡ plain.sign_of (class_of_kind kind) }
{
    match kind {
        TokenKind::SymAttr => Sign::At,
        TokenKind::SymPeriod => Sign::Period,
        TokenKind::SymSemicolon => Sign::Semicolon,
        TokenKind::SymComma => Sign::Comma,
        TokenKind::SymParenLeft => Sign::Opening,
        TokenKind::TemplateArgsStart => Sign::ListOpening,
        TokenKind::SymParenRight | TokenKind::TemplateArgsEnd => Sign::Closing,
        TokenKind::SymBraceLeft => Sign::BlockStart,
        TokenKind::SymBraceRight => Sign::BlockEnd,
        TokenKind::KwFn => Sign::Heads(Some(Declared::Function), Bracket::Parameters),
        TokenKind::KwStruct => Sign::Heads(Some(Declared::Structure), Bracket::Members),
        TokenKind::KwAlias => Sign::Heads(Some(Declared::Alias), Bracket::Block),
        TokenKind::KwConst => Sign::Heads(Some(Declared::Constant), Bracket::Block),
        TokenKind::KwOverride => Sign::Heads(Some(Declared::Override), Bracket::Block),
        TokenKind::KwVar => Sign::Heads(Some(Declared::Variable), Bracket::Block),
        TokenKind::KwLet => Sign::Heads(Some(Declared::Let), Bracket::Block),
        TokenKind::SymArrow => Sign::Heads(None, Bracket::FunctionResult),
        TokenKind::KwSwitch => Sign::Heads(None, Bracket::Clauses),
        TokenKind::KwFor => Sign::Heads(None, Bracket::Header),
        TokenKind::KwEnable | TokenKind::KwRequires | TokenKind::KwDiagnostic => Sign::Directive,
        TokenKind::KwCase | TokenKind::KwDefault | TokenKind::KwContinuing => Sign::NoStatement,
        TokenKind::KwBreak => Sign::Break,
        _ => Sign::None,
    }
}

/// Returns whether a token of a kind holds its text.
pub fn has_text(kind: TokenKind) -> bool
    ensures { result ≡ plain.has_text (class_of_kind kind) }
{
    matches!(kind, TokenKind::Ident | TokenKind::ReservedWord)
}

/// Returns whether a token of a kind is a name: a reserved word counts as one, and `_` too.
pub fn is_name(kind: TokenKind) -> bool
    ensures { result ≡ plain.is_name (class_of_kind kind) }
{
    matches!(
        kind,
        TokenKind::Ident | TokenKind::ReservedWord | TokenKind::SymUnderscore
    )
}

/// Returns what the names in the arguments of an attribute are, by its name.
pub(crate) fn argument_role(attribute: &str) -> Role
    ensures { role_view result ≡ plain.argument_role attribute.now }
{
    match attribute {
        "align"
        | "binding"
        | "blend_src"
        | "group"
        | "id"
        | "location"
        | "size"
        | "workgroup_size"
        | "type" => Role::Uses,
        "builtin" | "diagnostic" | "interpolate" => Role::Word,
        _ => Role::Unknown,
    }
}

/// Returns the condition that an attribute states, by its name.
pub(crate) fn branch_named(attribute: &str) -> Option<Branch>
    ensures { option_map branch_view result ≡ plain.branch_named attribute.now }
{
    match attribute {
        "if" => Some(Branch::If),
        "elif" => Some(Branch::Elif),
        "else" => Some(Branch::Else),
        _ => None,
    }
}
