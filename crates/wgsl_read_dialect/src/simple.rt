//! The rules of statements that hold no others, written by tools/tables/dialect.py.

use crate::rules::Symbol;
use crate::step::Step::{self, Choice, Rule, Token};
use wgsl_lex_token::kind::TokenKind;

/// The steps of `return`, with a value if there is one, without its `;`.
pub const RETURNING_PART: &[Step] = &[
    Token(&[TokenKind::KwReturn]),
    Choice(
        &[
            TokenKind::SymAnd,
            TokenKind::SymBang,
            TokenKind::SymMinus,
            TokenKind::SymParenLeft,
            TokenKind::SymStar,
            TokenKind::SymTilde,
            TokenKind::KwFalse,
            TokenKind::KwTrue,
            TokenKind::Ident,
            TokenKind::ReservedWord,
            TokenKind::AbstractInt,
            TokenKind::I32,
            TokenKind::U32,
            TokenKind::AbstractFloat,
            TokenKind::F32,
            TokenKind::F16,
        ],
        &[Rule(Symbol::Expression)],
        &[],
    ),
];

/// The steps of a `var` among statements, without its `;`.
pub const LOCAL_PART: &[Step] = &[
    Rule(Symbol::VarTemplate),
    Rule(Symbol::TypedIdent),
    Choice(
        &[TokenKind::SymEqual],
        &[Token(&[TokenKind::SymEqual]), Rule(Symbol::Expression)],
        &[],
    ),
];

/// The steps of a `let` or `const` among statements, without its `;`.
pub const VALUE_PART: &[Step] = &[
    Choice(
        &[TokenKind::KwLet],
        &[Token(&[TokenKind::KwLet])],
        &[Token(&[TokenKind::KwConst])],
    ),
    Rule(Symbol::TypedIdent),
    Token(&[TokenKind::SymEqual]),
    Rule(Symbol::Expression),
];

/// The steps of an assignment to `_`.
pub const PHONY_PART: &[Step] = &[
    Token(&[TokenKind::SymUnderscore]),
    Token(&[TokenKind::SymEqual]),
    Rule(Symbol::Expression),
];

/// The steps of a call, an assignment, an increment or a decrement that does not begin with `(`.
pub const SIMPLE_PART: &[Step] = &[Choice(
    &[TokenKind::Ident, TokenKind::ReservedWord],
    &[Rule(Symbol::Ident), Rule(Symbol::NameRestStatement)],
    &[Choice(
        &[TokenKind::SymAnd, TokenKind::SymStar],
        &[Rule(Symbol::PrefixedLeftSide), Rule(Symbol::LeftSideRest)],
        &[Rule(Symbol::PhonyPart)],
    )],
)];

/// The steps of `const_assert` and its expression, without its `;`.
pub const ASSERT_PART: &[Step] = &[Token(&[TokenKind::KwConstAssert]), Rule(Symbol::Expression)];

/// The steps of what follows a left side: an operator and a value, or `++` or `--`.
pub const LEFT_SIDE_REST: &[Step] = &[Choice(
    &[
        TokenKind::SymEqual,
        TokenKind::SymPlusEqual,
        TokenKind::SymMinusEqual,
        TokenKind::SymTimesEqual,
        TokenKind::SymDivisionEqual,
        TokenKind::SymModuloEqual,
        TokenKind::SymAndEqual,
        TokenKind::SymOrEqual,
        TokenKind::SymXorEqual,
        TokenKind::SymShiftRightAssign,
        TokenKind::SymShiftLeftAssign,
    ],
    &[
        Choice(
            &[TokenKind::SymEqual],
            &[Token(&[TokenKind::SymEqual])],
            &[Choice(
                &[TokenKind::SymPlusEqual],
                &[Token(&[TokenKind::SymPlusEqual])],
                &[Choice(
                    &[TokenKind::SymMinusEqual],
                    &[Token(&[TokenKind::SymMinusEqual])],
                    &[Choice(
                        &[TokenKind::SymTimesEqual],
                        &[Token(&[TokenKind::SymTimesEqual])],
                        &[Choice(
                            &[TokenKind::SymDivisionEqual],
                            &[Token(&[TokenKind::SymDivisionEqual])],
                            &[Choice(
                                &[TokenKind::SymModuloEqual],
                                &[Token(&[TokenKind::SymModuloEqual])],
                                &[Choice(
                                    &[TokenKind::SymAndEqual],
                                    &[Token(&[TokenKind::SymAndEqual])],
                                    &[Choice(
                                        &[TokenKind::SymOrEqual],
                                        &[Token(&[TokenKind::SymOrEqual])],
                                        &[Choice(
                                            &[TokenKind::SymXorEqual],
                                            &[Token(&[TokenKind::SymXorEqual])],
                                            &[Choice(
                                                &[TokenKind::SymShiftRightAssign],
                                                &[Token(&[TokenKind::SymShiftRightAssign])],
                                                &[Token(&[TokenKind::SymShiftLeftAssign])],
                                            )],
                                        )],
                                    )],
                                )],
                            )],
                        )],
                    )],
                )],
            )],
        ),
        Rule(Symbol::Expression),
    ],
    &[Choice(
        &[TokenKind::SymPlusPlus],
        &[Token(&[TokenKind::SymPlusPlus])],
        &[Token(&[TokenKind::SymMinusMinus])],
    )],
)];

/// The steps of what follows the name that a statement begins with.
pub const NAME_REST_STATEMENT: &[Step] = &[Choice(
    &[TokenKind::TemplateArgsStart, TokenKind::SymParenLeft],
    &[
        Choice(
            &[TokenKind::TemplateArgsStart],
            &[Rule(Symbol::TemplateList)],
            &[],
        ),
        Rule(Symbol::Arguments),
    ],
    &[Rule(Symbol::Components), Rule(Symbol::LeftSideRest)],
)];

/// The steps of an assignment, an increment or a decrement that begins with `(`.
pub const PARENTHESIZED_STATEMENT: &[Step] = &[
    Rule(Symbol::LeftSideInParentheses),
    Rule(Symbol::LeftSideRest),
];

/// The steps of a statement that has no attributes, with its `;`.
pub const PLAIN_STATEMENT: &[Step] = &[Choice(
    &[TokenKind::SymSemicolon],
    &[Token(&[TokenKind::SymSemicolon])],
    &[
        Rule(Symbol::ParenthesizedStatement),
        Token(&[TokenKind::SymSemicolon]),
    ],
)];
