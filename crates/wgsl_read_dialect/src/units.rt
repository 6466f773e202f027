//! The rules of attributes, declarations, directives and units, written by tools/tables/dialect.py.

use crate::rules::Symbol;
use crate::step::Step::{self, Choice, Repeat, Rule, Token};
use wgsl_lex_token::kind::TokenKind;

/// The tokens that begin attributes or a `var`, an `override` or a function.
pub const BEGINS_ATTRIBUTE_LIST_ATTRIBUTED_PART: &[TokenKind] = &[
    TokenKind::SymAttr,
    TokenKind::KwFn,
    TokenKind::KwOverride,
    TokenKind::KwVar,
];

/// The steps of an attribute.
pub const ATTRIBUTE: &[Step] = &[
    Token(&[TokenKind::SymAttr]),
    Token(&[TokenKind::Ident]),
    Choice(&[TokenKind::SymParenLeft], &[Rule(Symbol::Arguments)], &[]),
];

/// The steps of `var` and its template.
pub const VAR_TEMPLATE: &[Step] = &[
    Token(&[TokenKind::KwVar]),
    Choice(
        &[TokenKind::TemplateArgsStart],
        &[Rule(Symbol::TemplateList)],
        &[],
    ),
];

/// The steps of a name, and its type if there is one.
pub const TYPED_IDENT: &[Step] = &[
    Rule(Symbol::Ident),
    Choice(
        &[TokenKind::SymColon],
        &[Token(&[TokenKind::SymColon]), Rule(Symbol::TypeSpecifier)],
        &[],
    ),
];

/// The steps of a member of a structure.
pub const STRUCT_MEMBER: &[Step] = &[
    Rule(Symbol::AttributeList),
    Rule(Symbol::Ident),
    Token(&[TokenKind::SymColon]),
    Rule(Symbol::TypeSpecifier),
];

/// The steps of a parameter of a function.
pub const FORMAL_PARAMETER: &[Step] = &[
    Rule(Symbol::AttributeList),
    Rule(Symbol::Ident),
    Token(&[TokenKind::SymColon]),
    Rule(Symbol::TypeSpecifier),
];

/// The steps of a declaration of a module.
pub const GLOBAL_DECLARATION: &[Step] = &[Choice(
    &[TokenKind::SymSemicolon],
    &[Token(&[TokenKind::SymSemicolon])],
    &[Choice(
        BEGINS_ATTRIBUTE_LIST_ATTRIBUTED_PART,
        &[Rule(Symbol::AttributeList), Rule(Symbol::AttributedPart)],
        &[Rule(Symbol::LedPart)],
    )],
)];

/// The steps of `diagnostic (` and a severity.
pub const DIAGNOSTIC_SEVERITY: &[Step] = &[
    Token(&[TokenKind::KwDiagnostic]),
    Token(&[TokenKind::SymParenLeft]),
    Rule(Symbol::Ident),
];

/// The steps of a module.
pub const UNIT: &[Step] = &[Rule(Symbol::Front)];

/// The steps of the members of a structure, one at least, and the `}`.
pub const MEMBER_ITEMS: &[Step] = &[Rule(Symbol::StructMember), Rule(Symbol::MemberMore)];

/// The steps of what follows a comma between members, up to the `}`.
pub const MEMBER_REST: &[Step] = &[Choice(
    &[TokenKind::SymBraceRight],
    &[Token(&[TokenKind::SymBraceRight])],
    &[Rule(Symbol::StructMember), Rule(Symbol::MemberMore)],
)];

/// The steps of what follows a member, up to the `}`.
pub const MEMBER_MORE: &[Step] = &[Choice(
    &[TokenKind::SymComma],
    &[Token(&[TokenKind::SymComma]), Rule(Symbol::MemberRest)],
    &[Token(&[TokenKind::SymBraceRight])],
)];

/// The steps of what follows the `(` of parameters, or a comma between them, up to the `)`.
pub const PARAMETER_REST: &[Step] = &[Choice(
    &[TokenKind::SymParenRight],
    &[Token(&[TokenKind::SymParenRight])],
    &[Rule(Symbol::FormalParameter), Rule(Symbol::ParameterMore)],
)];

/// The steps of what follows a parameter, up to the `)`.
pub const PARAMETER_MORE: &[Step] = &[Choice(
    &[TokenKind::SymComma],
    &[Token(&[TokenKind::SymComma]), Rule(Symbol::ParameterRest)],
    &[Token(&[TokenKind::SymParenRight])],
)];

/// The steps of the names of a directive, one at least, and its `;`.
pub const NAME_ITEMS: &[Step] = &[Rule(Symbol::Ident), Rule(Symbol::NameMore)];

/// The steps of what follows a comma between the names of a directive, up to its `;`.
pub const NAME_REST: &[Step] = &[Choice(
    &[TokenKind::SymSemicolon],
    &[Token(&[TokenKind::SymSemicolon])],
    &[Rule(Symbol::Ident), Rule(Symbol::NameMore)],
)];

/// The steps of what follows a name of a directive, up to its `;`.
pub const NAME_MORE: &[Step] = &[Choice(
    &[TokenKind::SymComma],
    &[Token(&[TokenKind::SymComma]), Rule(Symbol::NameRest)],
    &[Token(&[TokenKind::SymSemicolon])],
)];

/// The steps of attributes, none too.
pub const ATTRIBUTE_LIST: &[Step] = &[Repeat(&[TokenKind::SymAttr], &[Rule(Symbol::Attribute)])];

/// The steps of a `var` of a module after its attributes.
pub const VAR_PART: &[Step] = &[
    Rule(Symbol::VarTemplate),
    Rule(Symbol::TypedIdent),
    Choice(
        &[TokenKind::SymEqual],
        &[Token(&[TokenKind::SymEqual]), Rule(Symbol::Expression)],
        &[],
    ),
    Token(&[TokenKind::SymSemicolon]),
];

/// The steps of an `override` after its attributes.
pub const OVERRIDE_PART: &[Step] = &[
    Token(&[TokenKind::KwOverride]),
    Rule(Symbol::TypedIdent),
    Choice(
        &[TokenKind::SymEqual],
        &[Token(&[TokenKind::SymEqual]), Rule(Symbol::Expression)],
        &[],
    ),
    Token(&[TokenKind::SymSemicolon]),
];

/// The steps of a function after its attributes.
pub const FUNCTION_PART: &[Step] = &[
    Token(&[TokenKind::KwFn]),
    Rule(Symbol::Ident),
    Token(&[TokenKind::SymParenLeft]),
    Rule(Symbol::ParameterRest),
    Choice(
        &[TokenKind::SymArrow],
        &[
            Token(&[TokenKind::SymArrow]),
            Rule(Symbol::AttributeList),
            Rule(Symbol::TypeSpecifier),
        ],
        &[],
    ),
    Rule(Symbol::CompoundStatement),
];

/// The steps of a `const` of a module after its attributes.
pub const CONST_PART: &[Step] = &[
    Token(&[TokenKind::KwConst]),
    Rule(Symbol::TypedIdent),
    Token(&[TokenKind::SymEqual]),
    Rule(Symbol::Expression),
    Token(&[TokenKind::SymSemicolon]),
];

/// The steps of an `alias` after its attributes.
pub const ALIAS_PART: &[Step] = &[
    Token(&[TokenKind::KwAlias]),
    Rule(Symbol::Ident),
    Token(&[TokenKind::SymEqual]),
    Rule(Symbol::TypeSpecifier),
    Token(&[TokenKind::SymSemicolon]),
];

/// The steps of a `struct` after its attributes.
pub const STRUCT_PART: &[Step] = &[
    Token(&[TokenKind::KwStruct]),
    Rule(Symbol::Ident),
    Token(&[TokenKind::SymBraceLeft]),
    Rule(Symbol::MemberItems),
];

/// The steps of an `enable` after its attributes.
pub const ENABLE_PART: &[Step] = &[Token(&[TokenKind::KwEnable]), Rule(Symbol::NameItems)];

/// The steps of a `requires` after its attributes.
pub const REQUIRES_PART: &[Step] = &[Token(&[TokenKind::KwRequires]), Rule(Symbol::NameItems)];

/// The steps of a `diagnostic` after its attributes.
pub const DIAGNOSTIC_PART: &[Step] = &[
    Rule(Symbol::DiagnosticSeverity),
    Token(&[TokenKind::SymComma]),
    Rule(Symbol::Ident),
    Choice(
        &[TokenKind::SymPeriod],
        &[Token(&[TokenKind::SymPeriod]), Rule(Symbol::Ident)],
        &[],
    ),
    Choice(
        &[TokenKind::SymComma],
        &[Token(&[TokenKind::SymComma])],
        &[],
    ),
    Token(&[TokenKind::SymParenRight]),
    Token(&[TokenKind::SymSemicolon]),
];

/// The steps of a `var`, an `override` or a function, after its attributes.
pub const ATTRIBUTED_PART: &[Step] = &[Choice(
    &[TokenKind::KwVar],
    &[Rule(Symbol::VarPart)],
    &[Choice(
        &[TokenKind::KwOverride],
        &[Rule(Symbol::OverridePart)],
        &[Rule(Symbol::FunctionPart)],
    )],
)];

/// The steps of a `const`, an `alias`, a `struct` or a `const_assert`, after its attributes.
pub const LED_PART: &[Step] = &[Choice(
    &[TokenKind::KwConst],
    &[Rule(Symbol::ConstPart)],
    &[Choice(
        &[TokenKind::KwAlias],
        &[Rule(Symbol::AliasPart)],
        &[Choice(
            &[TokenKind::KwStruct],
            &[Rule(Symbol::StructPart)],
            &[Rule(Symbol::AssertPart), Token(&[TokenKind::SymSemicolon])],
        )],
    )],
)];

/// The steps of a directive after its attributes.
pub const DIRECTIVE_PART: &[Step] = &[Choice(
    &[TokenKind::KwEnable],
    &[Rule(Symbol::EnablePart)],
    &[Choice(
        &[TokenKind::KwRequires],
        &[Rule(Symbol::RequiresPart)],
        &[Rule(Symbol::DiagnosticPart)],
    )],
)];

/// The steps of declarations, none too.
pub const DECLARATION_LIST: &[Step] = &[Repeat(
    &[
        TokenKind::SymAttr,
        TokenKind::SymSemicolon,
        TokenKind::KwAlias,
        TokenKind::KwConst,
        TokenKind::KwConstAssert,
        TokenKind::KwFn,
        TokenKind::KwOverride,
        TokenKind::KwStruct,
        TokenKind::KwVar,
    ],
    &[Rule(Symbol::GlobalDeclaration)],
)];

/// The steps of the directives and the declarations of a module, or those that are left.
pub const FRONT: &[Step] = &[Choice(
    &[TokenKind::SymSemicolon],
    &[
        Token(&[TokenKind::SymSemicolon]),
        Rule(Symbol::DeclarationList),
    ],
    &[Choice(
        &[
            TokenKind::SymAttr,
            TokenKind::KwFn,
            TokenKind::KwOverride,
            TokenKind::KwVar,
            TokenKind::KwDiagnostic,
            TokenKind::KwEnable,
            TokenKind::KwRequires,
            TokenKind::KwAlias,
            TokenKind::KwConst,
            TokenKind::KwConstAssert,
            TokenKind::KwStruct,
        ],
        &[Choice(
            BEGINS_ATTRIBUTE_LIST_ATTRIBUTED_PART,
            &[
                Rule(Symbol::AttributeList),
                Rule(Symbol::AttributedPart),
                Rule(Symbol::DeclarationList),
            ],
            &[Choice(
                &[
                    TokenKind::KwDiagnostic,
                    TokenKind::KwEnable,
                    TokenKind::KwRequires,
                ],
                &[Rule(Symbol::DirectivePart), Rule(Symbol::Front)],
                &[Rule(Symbol::LedPart), Rule(Symbol::DeclarationList)],
            )],
        )],
        &[],
    )],
)];
