//! What a token does where it is.

ghost use Rattle.std.specs.Prelude.{◌≡◌, true};
ghost use Rattle.wgsl_model_tidy.specs.Roles.{role_of, sign_role, is, ends_operand, begins_operand, wants_operand, is_literal, ends_item, ends_operands, is_in_operand, precedence, is_tight, opens, opens_bracket, closes, closes_bracket, begins_item};
ghost use Rattle.wgsl_lex_token.specs.View.{class_of_kind};
ghost use Rattle.wgsl_format_layout.specs.View.{role_view};

use wgsl_lex_token::kind::TokenKind;

/// What a token does where it is, or is to what follows it.
#[derive(Clone, Copy)]
pub(crate) enum Role {
    /// A name, `true`, `false`, or the `diagnostic` of a directive.
    Name,
    /// A whole number without a suffix, which would go on with a `.`.
    Unsuffixed,
    /// Every other number.
    Number,
    /// Every other word but `else`, `_` and `->`.
    Word,
    ElseWord,
    /// `(` or `[`.
    Opening,
    /// `)` or `]`.
    Closing,
    TemplateStart,
    TemplateEnd,
    BlockStart,
    BlockEnd,
    Comma,
    Semicolon,
    Colon,
    Period,
    At,
    /// A `-` before its operand.
    Minus,
    /// A `&` before its operand.
    Ampersand,
    /// Another operator before its operand.
    Prefix,
    /// An operator between operands.
    Binary,
    /// The operator of an assignment.
    Assign,
    /// `++` or `--` of an increment or a decrement.
    Step,
    /// Nothing is before.
    Beginning,
    /// The end of a statement, a declaration or a member.
    ItemEnd,
    /// The name of an attribute, or its arguments.
    Attribute,
}

/// `-`, `&` or `*`, after an operand or not.
fn sign_role(after_operand: bool, kind: TokenKind) -> Role
    ensures { role_view result ≡ sign_role after_operand (class_of_kind kind) }
{
    if after_operand {
        return Role::Binary;
    }
    match kind {
        TokenKind::SymMinus => Role::Minus,
        TokenKind::SymAnd => Role::Ampersand,
        _ => Role::Prefix,
    }
}

/// What a kind of token does, after an operand or not, `--` as in a decrement.
pub(crate) fn role_of(after_operand: bool, kind: TokenKind) -> Role
    ensures { role_view result ≡ role_of after_operand (class_of_kind kind) }
{
    match kind {
        TokenKind::Ident
        | TokenKind::ReservedWord
        | TokenKind::KwTrue
        | TokenKind::KwFalse
        | TokenKind::KwDiagnostic => Role::Name,
        TokenKind::AbstractInt => Role::Unsuffixed,
        TokenKind::I32
        | TokenKind::U32
        | TokenKind::AbstractFloat
        | TokenKind::F32
        | TokenKind::F16 => Role::Number,
        TokenKind::KwElse => Role::ElseWord,
        TokenKind::SymParenLeft | TokenKind::SymBracketLeft => Role::Opening,
        TokenKind::SymParenRight | TokenKind::SymBracketRight => Role::Closing,
        TokenKind::TemplateArgsStart => Role::TemplateStart,
        TokenKind::TemplateArgsEnd => Role::TemplateEnd,
        TokenKind::SymBraceLeft => Role::BlockStart,
        TokenKind::SymBraceRight => Role::BlockEnd,
        TokenKind::SymComma => Role::Comma,
        TokenKind::SymSemicolon => Role::Semicolon,
        TokenKind::SymColon => Role::Colon,
        TokenKind::SymPeriod => Role::Period,
        TokenKind::SymAttr => Role::At,
        TokenKind::SymMinus | TokenKind::SymAnd | TokenKind::SymStar => {
            sign_role(after_operand, kind)
        }
        TokenKind::SymBang | TokenKind::SymTilde => Role::Prefix,
        TokenKind::SymPlusPlus | TokenKind::SymMinusMinus => Role::Step,
        TokenKind::SymAndAnd
        | TokenKind::SymForwardSlash
        | TokenKind::SymEqualEqual
        | TokenKind::SymNotEqual
        | TokenKind::SymGreaterThan
        | TokenKind::SymGreaterThanEqual
        | TokenKind::SymShiftRight
        | TokenKind::SymLessThan
        | TokenKind::SymLessThanEqual
        | TokenKind::SymShiftLeft
        | TokenKind::SymModulo
        | TokenKind::SymPlus
        | TokenKind::SymOr
        | TokenKind::SymOrOr
        | TokenKind::SymXor => Role::Binary,
        TokenKind::SymEqual
        | TokenKind::SymPlusEqual
        | TokenKind::SymMinusEqual
        | TokenKind::SymTimesEqual
        | TokenKind::SymDivisionEqual
        | TokenKind::SymModuloEqual
        | TokenKind::SymAndEqual
        | TokenKind::SymOrEqual
        | TokenKind::SymXorEqual
        | TokenKind::SymShiftRightAssign
        | TokenKind::SymShiftLeftAssign => Role::Assign,
        _ => Role::Word,
    }
}

/// How a token of a role binds, if it is an operator between operands, the weakest first; or 0.
pub(crate) fn precedence_of(role: Role, kind: TokenKind) -> u8
    ensures { result ≡ precedence (role_view role) (class_of_kind kind) }
{
    if !role.is(Role::Binary) {
        return 0;
    }
    match kind {
        TokenKind::SymOrOr => 1,
        TokenKind::SymAndAnd => 2,
        TokenKind::SymOr | TokenKind::SymXor | TokenKind::SymAnd => 3,
        TokenKind::SymShiftLeft | TokenKind::SymShiftRight => 5,
        TokenKind::SymPlus | TokenKind::SymMinus | TokenKind::SymMinusMinus => 6,
        TokenKind::SymStar | TokenKind::SymForwardSlash | TokenKind::SymModulo => 7,
        _ => 4,
    }
}

impl Role {
    /// Whether it is this one.
    pub(crate) fn is(self, other: Role) -> bool
        ensures { result ≡ is (role_view self) (role_view other) }
    {
        self as u8 == other as u8
    }

    /// Whether an operand can end with it.
    pub(crate) fn ends_operand(self) -> bool
        ensures { result ≡ ends_operand (role_view self) }
    {
        matches!(
            self,
            Role::Name | Role::Unsuffixed | Role::Number | Role::Closing | Role::TemplateEnd
        )
    }

    /// Whether an operand can begin with it.
    pub(crate) fn begins_operand(self) -> bool
        ensures { result ≡ begins_operand (role_view self) }
    {
        matches!(
            self,
            Role::Name
                | Role::Unsuffixed
                | Role::Number
                | Role::Opening
                | Role::Minus
                | Role::Ampersand
                | Role::Prefix
        )
    }

    /// Whether an operand comes next.
    pub(crate) fn wants_operand(self) -> bool
        ensures { result ≡ wants_operand (role_view self) }
    {
        matches!(
            self,
            Role::TemplateStart | Role::Minus | Role::Ampersand | Role::Prefix
        )
    }

    /// Whether nothing is before it.
    pub(crate) fn is_tight(self) -> bool
        ensures { result ≡ is_tight (role_view self) }
    {
        matches!(
            self,
            Role::Comma | Role::Semicolon | Role::Colon | Role::Closing
        )
    }

    /// Whether it opens a bracket, a template list or a block.
    pub(crate) fn opens(self) -> bool
        ensures { result ≡ opens (role_view self) }
    {
        matches!(self, Role::Opening | Role::TemplateStart | Role::BlockStart)
    }

    /// Whether it closes one.
    pub(crate) fn closes(self) -> bool
        ensures { result ≡ closes (role_view self) }
    {
        matches!(self, Role::Closing | Role::TemplateEnd | Role::BlockEnd)
    }

    /// Whether it opens a bracket or a template list.
    pub(crate) fn opens_bracket(self) -> bool
        ensures { result ≡ opens_bracket (role_view self) }
    {
        matches!(self, Role::Opening | Role::TemplateStart)
    }

    /// Whether it closes a bracket or a template list.
    pub(crate) fn closes_bracket(self) -> bool
        ensures { result ≡ closes_bracket (role_view self) }
    {
        matches!(self, Role::Closing | Role::TemplateEnd)
    }

    /// Whether it is a name or a number.
    pub(crate) fn is_literal(self) -> bool
        ensures { result ≡ is_literal (role_view self) }
    {
        matches!(self, Role::Name | Role::Unsuffixed | Role::Number)
    }

    /// Whether an item or a bracket ends with it, a block begins or ends, or something is assigned.
    pub(crate) fn ends_item(self) -> bool
        ensures { result ≡ ends_item (role_view self) }
    {
        matches!(
            self,
            Role::Comma
                | Role::Semicolon
                | Role::Closing
                | Role::TemplateEnd
                | Role::BlockStart
                | Role::BlockEnd
                | Role::Assign
        )
    }

    /// Whether operands end with it.
    pub(crate) fn ends_operands(self) -> bool
        ensures { result ≡ ends_operands (role_view self) }
    {
        matches!(self, Role::Colon | Role::Word | Role::ElseWord | Role::At) || self.ends_item()
    }

    /// Whether it is in the middle of an operand.
    pub(crate) fn is_in_operand(self) -> bool
        ensures { result ≡ is_in_operand (role_view self) }
    {
        matches!(
            self,
            Role::Period | Role::At | Role::Step | Role::Minus | Role::Ampersand | Role::Prefix
        ) || self.ends_operand()
    }

    /// Whether a line of tokens ends with it outside of brackets: a statement or a member ends, or
    /// a block begins or ends.
    pub(crate) fn ends_line(self) -> bool
        ensures { result ≡ true → ends_item (role_view self) ≡ true }
    {
        matches!(self, Role::Semicolon | Role::BlockStart | Role::BlockEnd)
    }

    /// Whether a statement, a declaration, a member or a clause can begin after it.
    pub(crate) fn begins_item(self) -> bool
        ensures { result ≡ begins_item (role_view self) }
    {
        matches!(
            self,
            Role::Beginning | Role::ItemEnd | Role::BlockStart | Role::BlockEnd | Role::Attribute
        )
    }
}
