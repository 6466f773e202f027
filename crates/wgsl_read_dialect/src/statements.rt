//! The rules of statements and their blocks, written by tools/tables/dialect.py.

use crate::rules::Symbol;
use crate::step::Step::{self, Choice, Rule, Token};
use wgsl_lex_token::kind::TokenKind;

/// The tokens that begin attributes or a statement that ends with a block.
pub const BEGINS_ATTRIBUTE_LIST_BRACED_PART: &[TokenKind] = &[
    TokenKind::SymAttr,
    TokenKind::SymBraceLeft,
    TokenKind::KwFor,
    TokenKind::KwIf,
    TokenKind::KwLoop,
    TokenKind::KwSwitch,
    TokenKind::KwWhile,
];

/// The tokens that begin a statement other than `break` that a `;` ends.
pub const BEGINS_ENDED_PART: &[TokenKind] = &[
    TokenKind::SymAnd,
    TokenKind::SymStar,
    TokenKind::SymUnderscore,
    TokenKind::KwConst,
    TokenKind::KwConstAssert,
    TokenKind::KwContinue,
    TokenKind::KwDiscard,
    TokenKind::KwLet,
    TokenKind::KwReturn,
    TokenKind::KwVar,
    TokenKind::Ident,
    TokenKind::ReservedWord,
];

/// The steps of a block.
pub const COMPOUND_STATEMENT: &[Step] = &[
    Rule(Symbol::AttributeList),
    Token(&[TokenKind::SymBraceLeft]),
    Rule(Symbol::StatementRest),
];

/// The steps of a statement.
pub const STATEMENT: &[Step] = &[Choice(
    &[TokenKind::SymParenLeft, TokenKind::SymSemicolon],
    &[Rule(Symbol::PlainStatement)],
    &[Choice(
        BEGINS_ATTRIBUTE_LIST_BRACED_PART,
        &[Rule(Symbol::AttributeList), Rule(Symbol::BracedPart)],
        &[Choice(
            BEGINS_ENDED_PART,
            &[Rule(Symbol::EndedPart)],
            &[
                Token(&[TokenKind::KwBreak]),
                Token(&[TokenKind::SymSemicolon]),
            ],
        )],
    )],
)];

/// The steps of a clause of a `switch`.
pub const SWITCH_CLAUSE: &[Step] = &[Rule(Symbol::ClausePart)];

/// The steps of a selector of a clause.
pub const CASE_SELECTOR: &[Step] = &[Choice(
    &[TokenKind::KwDefault],
    &[Token(&[TokenKind::KwDefault])],
    &[Rule(Symbol::Expression)],
)];

/// The steps of what is done before the first turn of a `for`.
pub const FOR_INIT: &[Step] = &[Choice(
    &[TokenKind::SymParenLeft],
    &[Rule(Symbol::ParenthesizedStatement)],
    &[Choice(
        &[TokenKind::KwVar],
        &[Rule(Symbol::LocalPart)],
        &[Choice(
            &[TokenKind::KwConst, TokenKind::KwLet],
            &[Rule(Symbol::ValuePart)],
            &[Rule(Symbol::SimplePart)],
        )],
    )],
)];

/// The steps of what is done after each turn of a `for`.
pub const FOR_UPDATE: &[Step] = &[Choice(
    &[TokenKind::SymParenLeft],
    &[Rule(Symbol::ParenthesizedStatement)],
    &[Rule(Symbol::SimplePart)],
)];

/// The steps of selectors with commas between, also after the last.
pub const SELECTORS: &[Step] = &[
    Rule(Symbol::CaseSelector),
    Choice(
        &[TokenKind::SymComma],
        &[
            Token(&[TokenKind::SymComma]),
            Choice(
                &[
                    TokenKind::SymAnd,
                    TokenKind::SymBang,
                    TokenKind::SymMinus,
                    TokenKind::SymParenLeft,
                    TokenKind::SymStar,
                    TokenKind::SymTilde,
                    TokenKind::KwDefault,
                    TokenKind::KwFalse,
                    TokenKind::KwTrue,
                    TokenKind::Ident,
                    TokenKind::ReservedWord,
                    TokenKind::AbstractInt,
                    TokenKind::I32,
                    TokenKind::U32,
                    TokenKind::AbstractFloat,
                    TokenKind::F32,
                    TokenKind::F16,
                ],
                &[Rule(Symbol::Selectors)],
                &[],
            ),
        ],
        &[],
    ),
];

/// The steps of statements and the `}` after them.
pub const STATEMENT_REST: &[Step] = &[Choice(
    &[TokenKind::SymBraceRight],
    &[Token(&[TokenKind::SymBraceRight])],
    &[Rule(Symbol::Statement), Rule(Symbol::StatementRest)],
)];

/// The steps of the statements of a `loop`, its `continuing` if there is one, and the `}`.
pub const LOOP_REST: &[Step] = &[Choice(
    &[TokenKind::SymBraceRight],
    &[Token(&[TokenKind::SymBraceRight])],
    &[Choice(
        &[TokenKind::SymParenLeft, TokenKind::SymSemicolon],
        &[Rule(Symbol::PlainStatement), Rule(Symbol::LoopRest)],
        &[Choice(
            BEGINS_ATTRIBUTE_LIST_BRACED_PART,
            &[
                Rule(Symbol::AttributeList),
                Rule(Symbol::BracedPart),
                Rule(Symbol::LoopRest),
            ],
            &[Choice(
                &[TokenKind::KwContinuing],
                &[
                    Rule(Symbol::ContinuingPart),
                    Token(&[TokenKind::SymBraceRight]),
                ],
                &[
                    Choice(
                        BEGINS_ENDED_PART,
                        &[Rule(Symbol::EndedPart)],
                        &[
                            Token(&[TokenKind::KwBreak]),
                            Token(&[TokenKind::SymSemicolon]),
                        ],
                    ),
                    Rule(Symbol::LoopRest),
                ],
            )],
        )],
    )],
)];

/// The steps of the statements of a `continuing`, its `break if` if there is one, and the `}`.
pub const CONTINUING_REST: &[Step] = &[Choice(
    &[TokenKind::SymBraceRight],
    &[Token(&[TokenKind::SymBraceRight])],
    &[Choice(
        &[TokenKind::SymParenLeft, TokenKind::SymSemicolon],
        &[Rule(Symbol::PlainStatement), Rule(Symbol::ContinuingRest)],
        &[Choice(
            BEGINS_ATTRIBUTE_LIST_BRACED_PART,
            &[
                Rule(Symbol::AttributeList),
                Rule(Symbol::BracedPart),
                Rule(Symbol::ContinuingRest),
            ],
            &[Choice(
                &[TokenKind::KwBreak],
                &[
                    Token(&[TokenKind::KwBreak]),
                    Choice(
                        &[TokenKind::SymSemicolon],
                        &[
                            Token(&[TokenKind::SymSemicolon]),
                            Rule(Symbol::ContinuingRest),
                        ],
                        &[
                            Token(&[TokenKind::KwIf]),
                            Rule(Symbol::Expression),
                            Token(&[TokenKind::SymSemicolon]),
                            Token(&[TokenKind::SymBraceRight]),
                        ],
                    ),
                ],
                &[Rule(Symbol::EndedPart), Rule(Symbol::ContinuingRest)],
            )],
        )],
    )],
)];

/// The steps of further clauses of a `switch` and the `}` after them.
pub const CLAUSE_REST: &[Step] = &[Choice(
    &[TokenKind::SymBraceRight],
    &[Token(&[TokenKind::SymBraceRight])],
    &[Rule(Symbol::SwitchClause), Rule(Symbol::ClauseRest)],
)];

/// The steps of the clauses of an `if` after the first.
pub const ELSE_REST: &[Step] = &[Choice(
    &[TokenKind::KwElse],
    &[
        Token(&[TokenKind::KwElse]),
        Choice(
            &[TokenKind::KwIf],
            &[
                Token(&[TokenKind::KwIf]),
                Rule(Symbol::Expression),
                Rule(Symbol::CompoundStatement),
                Rule(Symbol::ElseRest),
            ],
            &[Rule(Symbol::CompoundStatement)],
        ),
    ],
    &[],
)];

/// The steps of what is done before the first turn of a `for`, if anything, and its `;`.
pub const INIT_PART: &[Step] = &[Choice(
    &[TokenKind::SymSemicolon],
    &[Token(&[TokenKind::SymSemicolon])],
    &[Rule(Symbol::ForInit), Token(&[TokenKind::SymSemicolon])],
)];

/// The steps of the condition of a `for`, if there is one, and its `;`.
pub const CONDITION_PART: &[Step] = &[Choice(
    &[TokenKind::SymSemicolon],
    &[Token(&[TokenKind::SymSemicolon])],
    &[Rule(Symbol::Expression), Token(&[TokenKind::SymSemicolon])],
)];

/// The steps of what is done after each turn of a `for`, if anything, and the `)`.
pub const UPDATE_PART: &[Step] = &[Choice(
    &[TokenKind::SymParenRight],
    &[Token(&[TokenKind::SymParenRight])],
    &[Rule(Symbol::ForUpdate), Token(&[TokenKind::SymParenRight])],
)];

/// The steps of a statement that ends with a block.
pub const BRACED_PART: &[Step] = &[Choice(
    &[TokenKind::KwIf],
    &[
        Token(&[TokenKind::KwIf]),
        Rule(Symbol::Expression),
        Rule(Symbol::CompoundStatement),
        Rule(Symbol::ElseRest),
    ],
    &[Choice(
        &[TokenKind::KwSwitch],
        &[
            Token(&[TokenKind::KwSwitch]),
            Rule(Symbol::Expression),
            Rule(Symbol::AttributeList),
            Token(&[TokenKind::SymBraceLeft]),
            Rule(Symbol::SwitchClause),
            Rule(Symbol::ClauseRest),
        ],
        &[Choice(
            &[TokenKind::KwLoop],
            &[
                Token(&[TokenKind::KwLoop]),
                Rule(Symbol::AttributeList),
                Token(&[TokenKind::SymBraceLeft]),
                Rule(Symbol::LoopRest),
            ],
            &[Choice(
                &[TokenKind::KwFor],
                &[
                    Token(&[TokenKind::KwFor]),
                    Token(&[TokenKind::SymParenLeft]),
                    Rule(Symbol::InitPart),
                    Rule(Symbol::ConditionPart),
                    Rule(Symbol::UpdatePart),
                    Rule(Symbol::CompoundStatement),
                ],
                &[Choice(
                    &[TokenKind::KwWhile],
                    &[
                        Token(&[TokenKind::KwWhile]),
                        Rule(Symbol::Expression),
                        Rule(Symbol::CompoundStatement),
                    ],
                    &[
                        Token(&[TokenKind::SymBraceLeft]),
                        Rule(Symbol::StatementRest),
                    ],
                )],
            )],
        )],
    )],
)];

/// The steps of a statement other than `break` that a `;` ends, with its `;`.
pub const ENDED_PART: &[Step] = &[
    Choice(
        &[TokenKind::KwReturn],
        &[Rule(Symbol::ReturningPart)],
        &[Choice(
            &[TokenKind::KwVar],
            &[Rule(Symbol::LocalPart)],
            &[Choice(
                &[TokenKind::KwConst, TokenKind::KwLet],
                &[Rule(Symbol::ValuePart)],
                &[Choice(
                    &[TokenKind::KwContinue],
                    &[Token(&[TokenKind::KwContinue])],
                    &[Choice(
                        &[TokenKind::KwDiscard],
                        &[Token(&[TokenKind::KwDiscard])],
                        &[Choice(
                            &[
                                TokenKind::SymAnd,
                                TokenKind::SymStar,
                                TokenKind::SymUnderscore,
                                TokenKind::Ident,
                                TokenKind::ReservedWord,
                            ],
                            &[Rule(Symbol::SimplePart)],
                            &[Rule(Symbol::AssertPart)],
                        )],
                    )],
                )],
            )],
        )],
    ),
    Token(&[TokenKind::SymSemicolon]),
];

/// The steps of a clause of a `switch` after its attributes.
pub const CLAUSE_PART: &[Step] = &[Choice(
    &[TokenKind::KwCase],
    &[
        Token(&[TokenKind::KwCase]),
        Rule(Symbol::Selectors),
        Choice(
            &[TokenKind::SymColon],
            &[Token(&[TokenKind::SymColon])],
            &[],
        ),
        Rule(Symbol::CompoundStatement),
    ],
    &[
        Token(&[TokenKind::KwDefault]),
        Choice(
            &[TokenKind::SymColon],
            &[Token(&[TokenKind::SymColon])],
            &[],
        ),
        Rule(Symbol::CompoundStatement),
    ],
)];

/// The steps of a `continuing`.
pub const CONTINUING_PART: &[Step] = &[
    Token(&[TokenKind::KwContinuing]),
    Rule(Symbol::AttributeList),
    Token(&[TokenKind::SymBraceLeft]),
    Rule(Symbol::ContinuingRest),
];
