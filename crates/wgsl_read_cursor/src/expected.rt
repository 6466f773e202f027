//! What could be where a token was refused.

use std::alloc::{AllocError, Global};
use wgsl_lex_token::kind::TokenKind;

/// The tokens that could be where one was refused, by their kinds in order.
#[derive(Clone, Copy)]
pub enum Expected {
    One(TokenKind),
    OneOf(&'static [TokenKind]),
    /// No token, but the end of the text.
    End,
}

impl Expected {
    /// The tokens that are a literal.
    pub const LITERAL: Expected = Expected::OneOf(&[
        TokenKind::KwFalse,
        TokenKind::KwTrue,
        TokenKind::AbstractInt,
        TokenKind::I32,
        TokenKind::U32,
        TokenKind::AbstractFloat,
        TokenKind::F32,
        TokenKind::F16,
    ]);

    /// The tokens that an expression begins with.
    pub const EXPRESSION: Expected = Expected::OneOf(&[
        TokenKind::SymAnd,
        TokenKind::SymBang,
        TokenKind::SymMinus,
        TokenKind::SymParenLeft,
        TokenKind::SymStar,
        TokenKind::SymTilde,
        TokenKind::KwFalse,
        TokenKind::KwTrue,
        TokenKind::Ident,
        TokenKind::AbstractInt,
        TokenKind::I32,
        TokenKind::U32,
        TokenKind::AbstractFloat,
        TokenKind::F32,
        TokenKind::F16,
    ]);

    /// The tokens that are the name of an attribute.
    pub const ATTRIBUTE_NAME: Expected = Expected::OneOf(TokenKind::WORDS);

    /// The tokens that a directive or a declaration begins with.
    pub const DIRECTIVE_OR_DECLARATION: Expected = Expected::OneOf(&[
        TokenKind::SymAttr,
        TokenKind::SymSemicolon,
        TokenKind::KwAlias,
        TokenKind::KwConst,
        TokenKind::KwConstAssert,
        TokenKind::KwDiagnostic,
        TokenKind::KwEnable,
        TokenKind::KwFn,
        TokenKind::KwOverride,
        TokenKind::KwRequires,
        TokenKind::KwStruct,
        TokenKind::KwVar,
    ]);

    /// The tokens that a declaration begins with.
    pub const DECLARATION: Expected = Expected::OneOf(&[
        TokenKind::SymAttr,
        TokenKind::SymSemicolon,
        TokenKind::KwAlias,
        TokenKind::KwConst,
        TokenKind::KwConstAssert,
        TokenKind::KwFn,
        TokenKind::KwOverride,
        TokenKind::KwStruct,
        TokenKind::KwVar,
    ]);

    /// Returns the texts of these tokens, without that of the token that was refused, if there was
    /// one.
    pub fn texts(
        self,
        alloc: Global,
        refused: Option<TokenKind>,
    ) -> Result<Vec<String>, AllocError> {
        let mut texts = Vec::new(alloc);
        match self {
            Expected::One(kind) => texts.push(String::from_str(alloc, text_of(kind))?)?,
            Expected::OneOf(kinds) => {
                for kind in kinds {
                    if refused != Some(*kind) {
                        texts.push(String::from_str(alloc, text_of(*kind))?)?;
                    }
                }
            }
            Expected::End => texts.push(String::from_str(alloc, "end of file")?)?,
        }
        Ok(texts)
    }
}

/// The text of a kind, also of one that holds something.
fn text_of(kind: TokenKind) -> &'static str {
    match kind {
        TokenKind::Ident => "identifier",
        TokenKind::ReservedWord => "reserved word",
        TokenKind::AbstractInt => "integer literal",
        TokenKind::I32 => "i32 literal",
        TokenKind::U32 => "u32 literal",
        TokenKind::AbstractFloat => "float literal",
        TokenKind::F32 => "f32 literal",
        TokenKind::F16 => "f16 literal",
        _ => kind.text(),
    }
}
