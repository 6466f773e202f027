//! The rules of the language that is parsed where the smaller one has others, written by tools/tables/dialect.py.

use crate::rules::Symbol;
use crate::step::Step::{self, Choice, Repeat, Rule, Token};
use wgsl_lex_token::kind::TokenKind;

/// The tokens that begin a statement that ends with a block.
pub const BEGINS_BRACED_PART: &[TokenKind] = &[
    TokenKind::SymBraceLeft,
    TokenKind::KwFor,
    TokenKind::KwIf,
    TokenKind::KwLoop,
    TokenKind::KwSwitch,
    TokenKind::KwWhile,
];

/// The tokens that begin a statement other than `break` that a `;` ends.
pub const BEGINS_ENDED_PART: &[TokenKind] = &[
    TokenKind::SymAnd,
    TokenKind::SymStar,
    TokenKind::SymUnderscore,
    TokenKind::KwConst,
    TokenKind::KwConstAssert,
    TokenKind::KwContinue,
    TokenKind::KwDiscard,
    TokenKind::KwLet,
    TokenKind::KwReturn,
    TokenKind::KwVar,
    TokenKind::Ident,
    TokenKind::ReservedWord,
];

/// The tokens that begin a `var`, an `override` or a function.
pub const BEGINS_ATTRIBUTED_PART: &[TokenKind] = &[
    TokenKind::KwFn,
    TokenKind::KwOverride,
    TokenKind::KwVar,
];

/// The steps of a name.
pub const IDENT: &[Step] = &[Token(&[TokenKind::Ident, TokenKind::ReservedWord])];

/// The steps of an attribute.
pub const ATTRIBUTE: &[Step] = &[
    Token(&[TokenKind::SymAttr]),
    Token(&[
        TokenKind::Ident,
        TokenKind::ReservedWord,
        TokenKind::KwAlias,
        TokenKind::KwBreak,
        TokenKind::KwCase,
        TokenKind::KwConst,
        TokenKind::KwConstAssert,
        TokenKind::KwContinue,
        TokenKind::KwContinuing,
        TokenKind::KwDefault,
        TokenKind::KwDiagnostic,
        TokenKind::KwDiscard,
        TokenKind::KwElse,
        TokenKind::KwEnable,
        TokenKind::KwFalse,
        TokenKind::KwFn,
        TokenKind::KwFor,
        TokenKind::KwIf,
        TokenKind::KwLet,
        TokenKind::KwLoop,
        TokenKind::KwOverride,
        TokenKind::KwRequires,
        TokenKind::KwReturn,
        TokenKind::KwStruct,
        TokenKind::KwSwitch,
        TokenKind::KwTrue,
        TokenKind::KwVar,
        TokenKind::KwWhile,
    ]),
    Choice(&[TokenKind::SymParenLeft], &[Rule(Symbol::Arguments)], &[]),
];

/// The steps of a statement.
pub const STATEMENT: &[Step] = &[Choice(
    &[TokenKind::SymParenLeft, TokenKind::SymSemicolon],
    &[Rule(Symbol::PlainStatement)],
    &[
        Rule(Symbol::AttributeList),
        Choice(
            BEGINS_BRACED_PART,
            &[Rule(Symbol::BracedPart)],
            &[Choice(
                BEGINS_ENDED_PART,
                &[Rule(Symbol::EndedPart)],
                &[
                    Token(&[TokenKind::KwBreak]),
                    Token(&[TokenKind::SymSemicolon]),
                ],
            )],
        ),
    ],
)];

/// The steps of a clause of a `switch`.
pub const SWITCH_CLAUSE: &[Step] = &[Rule(Symbol::AttributeList), Rule(Symbol::ClausePart)];

/// The steps of what is done before the first turn of a `for`.
pub const FOR_INIT: &[Step] = &[Choice(
    &[TokenKind::SymParenLeft],
    &[Rule(Symbol::ParenthesizedStatement)],
    &[
        Rule(Symbol::AttributeList),
        Choice(
            &[TokenKind::KwVar],
            &[Rule(Symbol::LocalPart)],
            &[Choice(
                &[TokenKind::KwConst, TokenKind::KwLet],
                &[Rule(Symbol::ValuePart)],
                &[Rule(Symbol::SimplePart)],
            )],
        ),
    ],
)];

/// The steps of what is done after each turn of a `for`.
pub const FOR_UPDATE: &[Step] = &[Choice(
    &[TokenKind::SymParenLeft],
    &[Rule(Symbol::ParenthesizedStatement)],
    &[Rule(Symbol::AttributeList), Rule(Symbol::SimplePart)],
)];

/// The steps of a declaration of a module.
pub const GLOBAL_DECLARATION: &[Step] = &[Choice(
    &[TokenKind::SymSemicolon],
    &[Token(&[TokenKind::SymSemicolon])],
    &[
        Rule(Symbol::AttributeList),
        Choice(
            BEGINS_ATTRIBUTED_PART,
            &[Rule(Symbol::AttributedPart)],
            &[Rule(Symbol::LedPart)],
        ),
    ],
)];

/// The steps of the summands after a first one, none too.
pub const SUMMANDS: &[Step] = &[Repeat(
    &[
        TokenKind::SymPlus,
        TokenKind::SymMinus,
        TokenKind::SymMinusMinus,
    ],
    &[Choice(
        &[TokenKind::SymPlus, TokenKind::SymMinus],
        &[
            Choice(
                &[TokenKind::SymPlus],
                &[Token(&[TokenKind::SymPlus])],
                &[Token(&[TokenKind::SymMinus])],
            ),
            Rule(Symbol::MultiplicativeExpression),
        ],
        &[Rule(Symbol::NegatedExpression)],
    )],
)];

/// The steps of the statements of a `loop`, its `continuing` if there is one, and the `}`.
pub const LOOP_REST: &[Step] = &[Choice(
    &[TokenKind::SymBraceRight],
    &[Token(&[TokenKind::SymBraceRight])],
    &[Choice(
        &[TokenKind::SymParenLeft, TokenKind::SymSemicolon],
        &[Rule(Symbol::PlainStatement), Rule(Symbol::LoopRest)],
        &[
            Rule(Symbol::AttributeList),
            Choice(
                &[TokenKind::KwContinuing],
                &[
                    Rule(Symbol::ContinuingPart),
                    Token(&[TokenKind::SymBraceRight]),
                ],
                &[
                    Choice(
                        BEGINS_BRACED_PART,
                        &[Rule(Symbol::BracedPart)],
                        &[Choice(
                            BEGINS_ENDED_PART,
                            &[Rule(Symbol::EndedPart)],
                            &[
                                Token(&[TokenKind::KwBreak]),
                                Token(&[TokenKind::SymSemicolon]),
                            ],
                        )],
                    ),
                    Rule(Symbol::LoopRest),
                ],
            ),
        ],
    )],
)];

/// The steps of the statements of a `continuing`, its `break if` if there is one, and the `}`.
pub const CONTINUING_REST: &[Step] = &[Choice(
    &[TokenKind::SymBraceRight],
    &[Token(&[TokenKind::SymBraceRight])],
    &[Choice(
        &[TokenKind::SymParenLeft, TokenKind::SymSemicolon],
        &[Rule(Symbol::PlainStatement), Rule(Symbol::ContinuingRest)],
        &[
            Rule(Symbol::AttributeList),
            Choice(
                &[TokenKind::KwBreak],
                &[
                    Token(&[TokenKind::KwBreak]),
                    Choice(
                        &[TokenKind::SymSemicolon],
                        &[
                            Token(&[TokenKind::SymSemicolon]),
                            Rule(Symbol::ContinuingRest),
                        ],
                        &[
                            Token(&[TokenKind::KwIf]),
                            Rule(Symbol::Expression),
                            Token(&[TokenKind::SymSemicolon]),
                            Token(&[TokenKind::SymBraceRight]),
                        ],
                    ),
                ],
                &[
                    Choice(
                        BEGINS_BRACED_PART,
                        &[Rule(Symbol::BracedPart)],
                        &[Rule(Symbol::EndedPart)],
                    ),
                    Rule(Symbol::ContinuingRest),
                ],
            ),
        ],
    )],
)];

/// The steps of the directives and the declarations of a module, or those that are left.
pub const FRONT: &[Step] = &[Choice(
    &[TokenKind::SymSemicolon],
    &[
        Token(&[TokenKind::SymSemicolon]),
        Rule(Symbol::DeclarationList),
    ],
    &[Choice(
        &[
            TokenKind::SymAttr,
            TokenKind::KwDiagnostic,
            TokenKind::KwEnable,
            TokenKind::KwRequires,
            TokenKind::KwFn,
            TokenKind::KwOverride,
            TokenKind::KwVar,
            TokenKind::KwAlias,
            TokenKind::KwConst,
            TokenKind::KwConstAssert,
            TokenKind::KwStruct,
        ],
        &[
            Rule(Symbol::AttributeList),
            Choice(
                &[
                    TokenKind::KwDiagnostic,
                    TokenKind::KwEnable,
                    TokenKind::KwRequires,
                ],
                &[Rule(Symbol::DirectivePart), Rule(Symbol::Front)],
                &[
                    Choice(
                        BEGINS_ATTRIBUTED_PART,
                        &[Rule(Symbol::AttributedPart)],
                        &[Rule(Symbol::LedPart)],
                    ),
                    Rule(Symbol::DeclarationList),
                ],
            ),
        ],
        &[],
    )],
)];
