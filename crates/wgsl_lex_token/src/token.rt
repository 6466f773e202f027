//! What a token is, its copies and its text.

ghost use Rattle.std.specs.Prelude.{◌≡◌, IfOk, Some};
ghost use Rattle.wgsl_model.specs.Tokens.ClassTable.{is_keyword};
ghost use Rattle.wgsl_model.specs.Tokens.Texts.{kind_text};
ghost use Rattle.wgsl_lex_token.specs.Groups.{is_symbol, is_numeric_literal, is_trivia};
ghost use Rattle.wgsl_lex_token.specs.View.{kind_view};

use crate::kind::TokenKind;
pub use crate::token_table::Token;
use std::alloc::{AllocError, Global};
use std::fmt;

impl Token {
    /// Returns whether it is a comment.
    pub fn is_trivia(&self) -> bool
        ensures { result ≡ is_trivia (kind_view self.now).class }
    {
        matches!(self, Token::LineComment | Token::BlockComment)
    }

    /// Returns whether it is one of the 46 symbols.
    pub fn is_symbol(&self) -> bool
        ensures { result ≡ is_symbol (kind_view self.now).class }
    {
        self.kind() as u8 <= TokenKind::SymShiftLeftAssign as u8
    }

    /// Returns whether it is a keyword.
    pub fn is_keyword(&self) -> bool
        ensures { result ≡ is_keyword (kind_view self.now).class }
    {
        self.kind().is_keyword()
    }

    /// Returns whether it is a number.
    pub fn is_numeric_literal(&self) -> bool
        ensures { result ≡ is_numeric_literal (kind_view self.now).class }
    {
        let kind = self.kind() as u8;
        TokenKind::AbstractInt as u8 <= kind && kind <= TokenKind::F16 as u8
    }

    /// Returns a copy, unless allocation fails.
    pub fn clone(&self, alloc: Global) -> Result<Token, AllocError>
        ensures { IfOk result (λ copy. kind_view copy ≡ kind_view self.now) }
    {
        match self {
            Token::Ident(text) => Ok(Token::Ident(String::from_str(alloc, text)?)),
            Token::ReservedWord(text) => Ok(Token::ReservedWord(String::from_str(alloc, text)?)),
            Token::AbstractInt(number) => Ok(Token::AbstractInt(*number)),
            Token::I32(number) => Ok(Token::I32(*number)),
            Token::U32(number) => Ok(Token::U32(*number)),
            Token::AbstractFloat(text) => Ok(Token::AbstractFloat(String::from_str(alloc, text)?)),
            Token::F32(text) => Ok(Token::F32(String::from_str(alloc, text)?)),
            Token::F16(text) => Ok(Token::F16(String::from_str(alloc, text)?)),
            _ => Ok(Token::from_kind(alloc, self.kind())),
        }
    }
}

impl fmt::Display for Token {
    ghost output = { λ t. Some (kind_text (kind_view t).class (kind_view t).payload) };

    fn fmt<W: fmt::Write>(&self, f: &mut fmt::Formatter<W>) -> fmt::Result {
        match self {
            Token::Ident(name) => write!(f, "identifier `{name}`"),
            Token::ReservedWord(word) => write!(f, "reserved word `{word}`"),
            Token::AbstractInt(number) => write!(f, "{number}"),
            Token::I32(number) => write!(f, "{number}i"),
            Token::U32(number) => write!(f, "{number}u"),
            Token::AbstractFloat(spelling) => write!(f, "{spelling}"),
            Token::F32(spelling) => write!(f, "{spelling}f"),
            Token::F16(spelling) => write!(f, "{spelling}h"),
            _ => f.write_str(self.kind().text()),
        }
    }
}
