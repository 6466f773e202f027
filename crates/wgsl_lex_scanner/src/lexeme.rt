//! A token whose name or spelling is still a part of the source.

ghost use Rattle.std.specs.Prelude.{◌≡◌, IfOk, IfSome};
ghost use Rattle.wgsl_model.specs.Tokens.ClassTable.{Ident};
ghost use Rattle.wgsl_model.specs.Tokens.Kind.{named};
ghost use Rattle.wgsl_lex_token.specs.View.{class_of_kind, kind_view};
ghost use Rattle.wgsl_lex_scanner.specs.View.{lexeme_view};

use std::alloc::{AllocError, Global};
use wgsl_lex_token::kind::TokenKind;
use wgsl_lex_token::token::Token;

/// A token whose name is still a part of the source, as is the spelling of a float without its
/// suffix. A plain one holds nothing.
#[derive(Clone, Copy, Debug, PartialEq)]
pub enum Lexeme<'s> {
    Plain(TokenKind),
    Ident(&'s str),
    ReservedWord(&'s str),
    AbstractInt(i64),
    I32(i32),
    U32(u32),
    AbstractFloat(&'s str),
    F32(&'s str),
    F16(&'s str),
}

impl<'s> Lexeme<'s> {
    /// Returns the kind of the token.
    pub fn kind(self) -> TokenKind
        ensures { class_of_kind result ≡ (lexeme_view self.entry).class }
    {
        match self {
            Lexeme::Plain(kind) => kind,
            Lexeme::Ident(_) => TokenKind::Ident,
            Lexeme::ReservedWord(_) => TokenKind::ReservedWord,
            Lexeme::AbstractInt(_) => TokenKind::AbstractInt,
            Lexeme::I32(_) => TokenKind::I32,
            Lexeme::U32(_) => TokenKind::U32,
            Lexeme::AbstractFloat(_) => TokenKind::AbstractFloat,
            Lexeme::F32(_) => TokenKind::F32,
            Lexeme::F16(_) => TokenKind::F16,
        }
    }

    /// Returns the name, if the token is one.
    pub fn name(self) -> Option<&'s str>
        ensures { IfSome result (λ name. lexeme_view self.entry ≡ named Ident name.now) }
    {
        match self {
            Lexeme::Ident(name) => Some(name),
            Lexeme::Plain(_)
            | Lexeme::ReservedWord(_)
            | Lexeme::AbstractInt(_)
            | Lexeme::I32(_)
            | Lexeme::U32(_)
            | Lexeme::AbstractFloat(_)
            | Lexeme::F32(_)
            | Lexeme::F16(_) => None,
        }
    }

    /// Returns the token, with a name or spelling of its own.
    pub fn to_token(self, alloc: Global) -> Result<Token, AllocError>
        ensures { IfOk result (λ token. kind_view token ≡ lexeme_view self.entry) }
    {
        Ok(match self {
            Lexeme::Plain(kind) => Token::from_kind(alloc, kind),
            Lexeme::Ident(name) => Token::Ident(String::from_str(alloc, name)?),
            Lexeme::ReservedWord(word) => Token::ReservedWord(String::from_str(alloc, word)?),
            Lexeme::AbstractInt(number) => Token::AbstractInt(number),
            Lexeme::I32(number) => Token::I32(number),
            Lexeme::U32(number) => Token::U32(number),
            Lexeme::AbstractFloat(text) => Token::AbstractFloat(String::from_str(alloc, text)?),
            Lexeme::F32(text) => Token::F32(String::from_str(alloc, text)?),
            Lexeme::F16(text) => Token::F16(String::from_str(alloc, text)?),
        })
    }
}
