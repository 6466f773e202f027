//! The rules of names, expressions and templates, written by tools/tables/dialect.py.

use crate::rules::Symbol;
use crate::step::Step::{self, Choice, Repeat, Rule, Token};
use wgsl_lex_token::kind::TokenKind;

/// The tokens with which a product goes on.
pub const CONTINUES_MULTIPLICATIVE_EXPRESSION: &[TokenKind] = &[
    TokenKind::SymStar,
    TokenKind::SymForwardSlash,
    TokenKind::SymModulo,
];

/// The steps of a name.
pub const IDENT: &[Step] = &[Token(&[TokenKind::Ident])];

/// The steps of a type, or an identifier with the arguments of its template.
pub const TYPE_SPECIFIER: &[Step] = &[
    Rule(Symbol::Ident),
    Choice(
        &[TokenKind::TemplateArgsStart],
        &[Rule(Symbol::TemplateList)],
        &[],
    ),
];

/// The steps of a template list.
pub const TEMPLATE_LIST: &[Step] = &[
    Token(&[TokenKind::TemplateArgsStart]),
    Rule(Symbol::TemplateItems),
];

/// The steps of arguments in parentheses.
pub const ARGUMENTS: &[Step] = &[
    Token(&[TokenKind::SymParenLeft]),
    Rule(Symbol::ArgumentRest),
];

/// The steps of a literal.
pub const LITERAL: &[Step] = &[Token(&[
    TokenKind::KwTrue,
    TokenKind::KwFalse,
    TokenKind::AbstractInt,
    TokenKind::I32,
    TokenKind::U32,
    TokenKind::AbstractFloat,
    TokenKind::F32,
    TokenKind::F16,
])];

/// The steps of a primary expression.
pub const PRIMARY_EXPRESSION: &[Step] = &[Choice(
    &[TokenKind::Ident, TokenKind::ReservedWord],
    &[
        Rule(Symbol::TypeSpecifier),
        Choice(&[TokenKind::SymParenLeft], &[Rule(Symbol::Arguments)], &[]),
    ],
    &[Choice(
        &[
            TokenKind::KwFalse,
            TokenKind::KwTrue,
            TokenKind::AbstractInt,
            TokenKind::I32,
            TokenKind::U32,
            TokenKind::AbstractFloat,
            TokenKind::F32,
            TokenKind::F16,
        ],
        &[Rule(Symbol::Literal)],
        &[
            Token(&[TokenKind::SymParenLeft]),
            Rule(Symbol::Expression),
            Token(&[TokenKind::SymParenRight]),
        ],
    )],
)];

/// The steps of a primary expression and its components.
pub const SINGULAR_EXPRESSION: &[Step] = &[
    Rule(Symbol::PrimaryExpression),
    Rule(Symbol::Components),
];

/// The steps of a component.
pub const COMPONENT: &[Step] = &[Choice(
    &[TokenKind::SymBracketLeft],
    &[
        Token(&[TokenKind::SymBracketLeft]),
        Rule(Symbol::Expression),
        Token(&[TokenKind::SymBracketRight]),
    ],
    &[Token(&[TokenKind::SymPeriod]), Rule(Symbol::Ident)],
)];

/// The steps of an operand with the operators before it.
pub const UNARY_EXPRESSION: &[Step] = &[Choice(
    &[
        TokenKind::SymParenLeft,
        TokenKind::KwFalse,
        TokenKind::KwTrue,
        TokenKind::Ident,
        TokenKind::ReservedWord,
        TokenKind::AbstractInt,
        TokenKind::I32,
        TokenKind::U32,
        TokenKind::AbstractFloat,
        TokenKind::F32,
        TokenKind::F16,
    ],
    &[Rule(Symbol::SingularExpression)],
    &[
        Choice(
            &[TokenKind::SymMinus],
            &[Token(&[TokenKind::SymMinus])],
            &[Choice(
                &[TokenKind::SymBang],
                &[Token(&[TokenKind::SymBang])],
                &[Choice(
                    &[TokenKind::SymTilde],
                    &[Token(&[TokenKind::SymTilde])],
                    &[Choice(
                        &[TokenKind::SymStar],
                        &[Token(&[TokenKind::SymStar])],
                        &[Token(&[TokenKind::SymAnd])],
                    )],
                )],
            )],
        ),
        Rule(Symbol::UnaryExpression),
    ],
)];

/// The steps of a product.
pub const MULTIPLICATIVE_EXPRESSION: &[Step] = &[
    Rule(Symbol::UnaryExpression),
    Repeat(
        CONTINUES_MULTIPLICATIVE_EXPRESSION,
        &[
            Choice(
                &[TokenKind::SymStar],
                &[Token(&[TokenKind::SymStar])],
                &[Choice(
                    &[TokenKind::SymForwardSlash],
                    &[Token(&[TokenKind::SymForwardSlash])],
                    &[Token(&[TokenKind::SymModulo])],
                )],
            ),
            Rule(Symbol::UnaryExpression),
        ],
    ),
];

/// The steps of a product of the negation that the second minus of `--` begins.
pub const NEGATED_EXPRESSION: &[Step] = &[
    Token(&[TokenKind::SymMinusMinus]),
    Rule(Symbol::UnaryExpression),
    Repeat(
        CONTINUES_MULTIPLICATIVE_EXPRESSION,
        &[
            Choice(
                &[TokenKind::SymStar],
                &[Token(&[TokenKind::SymStar])],
                &[Choice(
                    &[TokenKind::SymForwardSlash],
                    &[Token(&[TokenKind::SymForwardSlash])],
                    &[Token(&[TokenKind::SymModulo])],
                )],
            ),
            Rule(Symbol::UnaryExpression),
        ],
    ),
];

/// The steps of a shift or a sum.
pub const SHIFT_EXPRESSION: &[Step] = &[Rule(Symbol::UnaryExpression), Rule(Symbol::SumRest)];

/// The steps of a comparison, a shift or a sum.
pub const RELATIONAL_EXPRESSION: &[Step] = &[
    Rule(Symbol::ShiftExpression),
    Rule(Symbol::RelationRest),
];

/// The steps of an expression.
pub const EXPRESSION: &[Step] = &[Rule(Symbol::UnaryExpression), Rule(Symbol::ExpressionRest)];

/// The steps of a left side.
pub const LHS_EXPRESSION: &[Step] = &[Choice(
    &[TokenKind::Ident, TokenKind::ReservedWord],
    &[Rule(Symbol::Ident), Rule(Symbol::Components)],
    &[Choice(
        &[TokenKind::SymAnd, TokenKind::SymStar],
        &[Rule(Symbol::PrefixedLeftSide)],
        &[Rule(Symbol::LeftSideInParentheses)],
    )],
)];

/// The steps of the arguments of a template list, one at least, and its end.
pub const TEMPLATE_ITEMS: &[Step] = &[Rule(Symbol::Expression), Rule(Symbol::TemplateMore)];

/// The steps of what follows a comma in a template list: further arguments, or none, and its end.
pub const TEMPLATE_REST: &[Step] = &[Choice(
    &[TokenKind::TemplateArgsEnd],
    &[Token(&[TokenKind::TemplateArgsEnd])],
    &[Rule(Symbol::Expression), Rule(Symbol::TemplateMore)],
)];

/// The steps of what follows an argument in a template list, up to its end.
pub const TEMPLATE_MORE: &[Step] = &[Choice(
    &[TokenKind::SymComma],
    &[Token(&[TokenKind::SymComma]), Rule(Symbol::TemplateRest)],
    &[Token(&[TokenKind::TemplateArgsEnd])],
)];

/// The steps of what follows the `(` of arguments, or a comma in them, up to the `)`.
pub const ARGUMENT_REST: &[Step] = &[Choice(
    &[TokenKind::SymParenRight],
    &[Token(&[TokenKind::SymParenRight])],
    &[Rule(Symbol::Expression), Rule(Symbol::ArgumentMore)],
)];

/// The steps of what follows an argument, up to the `)`.
pub const ARGUMENT_MORE: &[Step] = &[Choice(
    &[TokenKind::SymComma],
    &[Token(&[TokenKind::SymComma]), Rule(Symbol::ArgumentRest)],
    &[Token(&[TokenKind::SymParenRight])],
)];

/// The steps of the components after a base, none too.
pub const COMPONENTS: &[Step] = &[Repeat(
    &[TokenKind::SymBracketLeft, TokenKind::SymPeriod],
    &[Rule(Symbol::Component)],
)];

/// The steps of the factors after a first one, none too.
pub const FACTORS: &[Step] = &[Repeat(
    CONTINUES_MULTIPLICATIVE_EXPRESSION,
    &[
        Choice(
            &[TokenKind::SymStar],
            &[Token(&[TokenKind::SymStar])],
            &[Choice(
                &[TokenKind::SymForwardSlash],
                &[Token(&[TokenKind::SymForwardSlash])],
                &[Token(&[TokenKind::SymModulo])],
            )],
        ),
        Rule(Symbol::UnaryExpression),
    ],
)];

/// The steps of the summands after a first one, none too.
pub const SUMMANDS: &[Step] = &[Repeat(
    &[TokenKind::SymPlus, TokenKind::SymMinus],
    &[
        Choice(
            &[TokenKind::SymPlus],
            &[Token(&[TokenKind::SymPlus])],
            &[Token(&[TokenKind::SymMinus])],
        ),
        Rule(Symbol::MultiplicativeExpression),
    ],
)];

/// The steps of what makes an operand a shift, or a sum of products.
pub const SUM_REST: &[Step] = &[Choice(
    &[TokenKind::SymShiftLeft],
    &[
        Token(&[TokenKind::SymShiftLeft]),
        Rule(Symbol::UnaryExpression),
    ],
    &[Choice(
        &[TokenKind::SymShiftRight],
        &[
            Token(&[TokenKind::SymShiftRight]),
            Rule(Symbol::UnaryExpression),
        ],
        &[Rule(Symbol::Factors), Rule(Symbol::Summands)],
    )],
)];

/// The steps of what makes an operand a comparison, or nothing.
pub const RELATION_REST: &[Step] = &[Choice(
    &[
        TokenKind::SymLessThan,
        TokenKind::SymGreaterThan,
        TokenKind::SymLessThanEqual,
        TokenKind::SymGreaterThanEqual,
        TokenKind::SymEqualEqual,
        TokenKind::SymNotEqual,
    ],
    &[
        Choice(
            &[TokenKind::SymLessThan],
            &[Token(&[TokenKind::SymLessThan])],
            &[Choice(
                &[TokenKind::SymGreaterThan],
                &[Token(&[TokenKind::SymGreaterThan])],
                &[Choice(
                    &[TokenKind::SymLessThanEqual],
                    &[Token(&[TokenKind::SymLessThanEqual])],
                    &[Choice(
                        &[TokenKind::SymGreaterThanEqual],
                        &[Token(&[TokenKind::SymGreaterThanEqual])],
                        &[Choice(
                            &[TokenKind::SymEqualEqual],
                            &[Token(&[TokenKind::SymEqualEqual])],
                            &[Token(&[TokenKind::SymNotEqual])],
                        )],
                    )],
                )],
            )],
        ),
        Rule(Symbol::ShiftExpression),
    ],
    &[],
)];

/// The steps of the operands of `&&` after a first one.
pub const AND_REST: &[Step] = &[
    Token(&[TokenKind::SymAndAnd]),
    Rule(Symbol::RelationalExpression),
    Repeat(
        &[TokenKind::SymAndAnd],
        &[
            Token(&[TokenKind::SymAndAnd]),
            Rule(Symbol::RelationalExpression),
        ],
    ),
];

/// The steps of the operands of `||` after a first one.
pub const OR_REST: &[Step] = &[
    Token(&[TokenKind::SymOrOr]),
    Rule(Symbol::RelationalExpression),
    Repeat(
        &[TokenKind::SymOrOr],
        &[
            Token(&[TokenKind::SymOrOr]),
            Rule(Symbol::RelationalExpression),
        ],
    ),
];

/// The steps of the operands of `&` after a first one.
pub const BITWISE_AND_REST: &[Step] = &[
    Token(&[TokenKind::SymAnd]),
    Rule(Symbol::UnaryExpression),
    Repeat(
        &[TokenKind::SymAnd],
        &[Token(&[TokenKind::SymAnd]), Rule(Symbol::UnaryExpression)],
    ),
];

/// The steps of the operands of `|` after a first one.
pub const BITWISE_OR_REST: &[Step] = &[
    Token(&[TokenKind::SymOr]),
    Rule(Symbol::UnaryExpression),
    Repeat(
        &[TokenKind::SymOr],
        &[Token(&[TokenKind::SymOr]), Rule(Symbol::UnaryExpression)],
    ),
];

/// The steps of the operands of `^` after a first one.
pub const BITWISE_XOR_REST: &[Step] = &[
    Token(&[TokenKind::SymXor]),
    Rule(Symbol::UnaryExpression),
    Repeat(
        &[TokenKind::SymXor],
        &[Token(&[TokenKind::SymXor]), Rule(Symbol::UnaryExpression)],
    ),
];

/// The steps of what makes an operand an expression.
pub const EXPRESSION_REST: &[Step] = &[Choice(
    &[TokenKind::SymAnd],
    &[Rule(Symbol::BitwiseAndRest)],
    &[Choice(
        &[TokenKind::SymOr],
        &[Rule(Symbol::BitwiseOrRest)],
        &[Choice(
            &[TokenKind::SymXor],
            &[Rule(Symbol::BitwiseXorRest)],
            &[
                Rule(Symbol::SumRest),
                Rule(Symbol::RelationRest),
                Choice(
                    &[TokenKind::SymAndAnd],
                    &[Rule(Symbol::AndRest)],
                    &[Choice(&[TokenKind::SymOrOr], &[Rule(Symbol::OrRest)], &[])],
                ),
            ],
        )],
    )],
)];

/// The steps of a left side in parentheses, with its components.
pub const LEFT_SIDE_IN_PARENTHESES: &[Step] = &[
    Token(&[TokenKind::SymParenLeft]),
    Rule(Symbol::LhsExpression),
    Token(&[TokenKind::SymParenRight]),
    Rule(Symbol::Components),
];

/// The steps of a left side that begins with `*` or `&`.
pub const PREFIXED_LEFT_SIDE: &[Step] = &[Choice(
    &[TokenKind::SymStar],
    &[Token(&[TokenKind::SymStar]), Rule(Symbol::LhsExpression)],
    &[Token(&[TokenKind::SymAnd]), Rule(Symbol::LhsExpression)],
)];
