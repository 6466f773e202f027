//! What a token is to a template list.

ghost use Rattle.std.specs.Prelude.{◌≡◌, ◌<◌, ◌+◌, ◌==◌, ◌^◌};
ghost use Rattle.grammar.specs.Grammar.{is_among};
ghost use Rattle.wgsl_model.specs.Tokens.ClassTable.{SymLessThan};
ghost use Rattle.wgsl_model.specs.Tokens.Templates.{is_word};
ghost use Rattle.wgsl_theory_templates.specs.Attempts.{less_signs};
ghost use Rattle.wgsl_lex_token.specs.View.{class_of_kind};
ghost use Rattle.wgsl_lex_templates.specs.Roles.{role, turn};

use wgsl_lex_token::kind::TokenKind;

/// What a kind of token is to a template list.
#[derive(Clone, Copy)]
enum TemplateRole {
    Opening,
    Closing,
    /// Begins with `>`.
    Greater,
    /// `&&` or `||`.
    ShortCircuit,
    /// Is in no expression.
    Stranger,
    Other,
}

fn role_of(kind: TokenKind) -> TemplateRole
    ensures { result ≡ role (class_of_kind kind) }
{
    match kind {
        TokenKind::SymParenLeft | TokenKind::SymBracketLeft => TemplateRole::Opening,
        TokenKind::SymParenRight | TokenKind::SymBracketRight => TemplateRole::Closing,
        TokenKind::SymGreaterThan
        | TokenKind::SymGreaterThanEqual
        | TokenKind::SymShiftRight
        | TokenKind::SymShiftRightAssign => TemplateRole::Greater,
        TokenKind::SymAndAnd | TokenKind::SymOrOr => TemplateRole::ShortCircuit,
        TokenKind::SymArrow
        | TokenKind::SymAttr
        | TokenKind::SymBraceLeft
        | TokenKind::SymBraceRight
        | TokenKind::SymColon
        | TokenKind::SymEqual
        | TokenKind::SymPlusPlus
        | TokenKind::SymSemicolon
        | TokenKind::SymUnderscore
        | TokenKind::SymPlusEqual
        | TokenKind::SymMinusEqual
        | TokenKind::SymTimesEqual
        | TokenKind::SymDivisionEqual
        | TokenKind::SymModuloEqual
        | TokenKind::SymAndEqual
        | TokenKind::SymOrEqual
        | TokenKind::SymXorEqual
        | TokenKind::SymShiftLeftAssign
        | TokenKind::ReservedWord => TemplateRole::Stranger,
        TokenKind::KwFalse | TokenKind::KwTrue => TemplateRole::Other,
        _ if kind.is_keyword() => TemplateRole::Stranger,
        _ => TemplateRole::Other,
    }
}

/// What a token does to the list that it is in.
#[derive(Clone, Copy)]
pub(crate) enum Turn {
    Ends,
    /// Shows that there is no list, if none in whose brackets it is.
    Stops,
    /// Shows that there is no list, and none around it.
    Refutes,
    /// Is inside; a number of brackets are open after it.
    Takes(usize),
}

/// What a token does where a number of brackets are open.
pub(crate) fn turn_of(depth: usize, kind: TokenKind) -> Turn
    requires { depth + 1 < 2 ^ 64 }
    ensures { result ≡ turn depth (class_of_kind kind) }
{
    match role_of(kind) {
        TemplateRole::Opening => Turn::Takes(depth + 1),
        TemplateRole::Closing if depth == 0 => Turn::Stops,
        TemplateRole::Closing => Turn::Takes(depth - 1),
        TemplateRole::Greater if depth == 0 => Turn::Ends,
        TemplateRole::Greater => Turn::Takes(depth),
        TemplateRole::ShortCircuit if depth == 0 => Turn::Stops,
        TemplateRole::ShortCircuit => Turn::Takes(depth),
        TemplateRole::Stranger => Turn::Refutes,
        TemplateRole::Other => Turn::Takes(depth),
    }
}

/// Returns whether a template list may follow: after an identifier or a keyword.
pub fn is_word(kind: TokenKind) -> bool
    ensures { result ≡ is_word (class_of_kind kind) }
{
    kind as u8 == TokenKind::Ident as u8 || kind.is_keyword()
}

/// Returns whether a kind is that of `<`.
pub fn is_less_than(kind: TokenKind) -> bool
    ensures { result ≡ (class_of_kind kind == SymLessThan) }
{
    kind as u8 == TokenKind::SymLessThan as u8
}

/// Whether it is an operator that ends with a `<`: `<` or `<<`.
pub(crate) fn ends_with_less_than(kind: TokenKind) -> bool
    ensures { result ≡ is_among (class_of_kind kind) less_signs }
{
    is_less_than(kind) || kind as u8 == TokenKind::SymShiftLeft as u8
}
