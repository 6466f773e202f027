//! What a token does to what is open before it.

ghost use Rattle.std.specs.Prelude.{◌≡◌};
ghost use Rattle.wgsl_lex_token.specs.View.{class_of_kind};
ghost use Rattle.wgsl_read_nesting.specs.Nesting.{is_operand_end};
ghost use Rattle.wgsl_read_nesting.specs.Effects.{effect};

use wgsl_lex_token::kind::TokenKind;

/// What a kind of token does to what is open before it.
#[derive(Clone, Copy)]
pub(crate) enum Effect {
    Opens,
    Closes,
    /// Goes on with an operand, whose prefix operators are open still.
    GoesOn,
    /// A prefix operator, unless an operand ends before it.
    MayPrefix,
    Ends,
}

pub(crate) fn effect_of(kind: TokenKind) -> Effect
    ensures { result ≡ effect (class_of_kind kind) }
{
    match kind {
        TokenKind::SymParenLeft
        | TokenKind::SymBracketLeft
        | TokenKind::SymBraceLeft
        | TokenKind::TemplateArgsStart => Effect::Opens,
        TokenKind::SymParenRight
        | TokenKind::SymBracketRight
        | TokenKind::SymBraceRight
        | TokenKind::TemplateArgsEnd => Effect::Closes,
        TokenKind::SymPeriod
        | TokenKind::KwFalse
        | TokenKind::KwTrue
        | TokenKind::Ident
        | TokenKind::ReservedWord
        | TokenKind::AbstractInt
        | TokenKind::I32
        | TokenKind::U32
        | TokenKind::AbstractFloat
        | TokenKind::F32
        | TokenKind::F16 => Effect::GoesOn,
        TokenKind::SymAnd
        | TokenKind::SymBang
        | TokenKind::SymMinus
        | TokenKind::SymStar
        | TokenKind::SymTilde => Effect::MayPrefix,
        _ => Effect::Ends,
    }
}

/// Whether an operand can end with the token, so that an operator after it is between two.
pub(crate) fn is_operand_end(kind: TokenKind) -> bool
    ensures { result ≡ is_operand_end (class_of_kind kind) }
{
    matches!(
        kind,
        TokenKind::SymBracketRight
            | TokenKind::SymParenRight
            | TokenKind::KwFalse
            | TokenKind::KwTrue
            | TokenKind::Ident
            | TokenKind::ReservedWord
            | TokenKind::AbstractInt
            | TokenKind::I32
            | TokenKind::U32
            | TokenKind::AbstractFloat
            | TokenKind::F32
            | TokenKind::F16
            | TokenKind::TemplateArgsEnd
    )
}
