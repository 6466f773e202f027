//! Tokens, their texts and their kinds.

use crate::making::assert_text;
use std::test::Fail;
use wgsl_lex_token::kind::TokenKind;
use wgsl_lex_token::token::Token;

/// Tokens that no lexer gives, or that few rows of texts have.
#[test]
fn texts_of_others(rt: HostRuntime) -> Result<(), Fail> {
    for (token, text) in [
        (Token::TemplateArgsStart, "start of template"),
        (Token::TemplateArgsEnd, "end of template"),
        (Token::LineComment, "// line comment"),
        (Token::BlockComment, "/* block comment */"),
        (Token::SymShiftRightAssign, ">>="),
        (Token::SymUnderscore, "_"),
        (Token::KwConstAssert, "const_assert"),
    ] {
        assert_text(&rt, rt.alloc(), token, Token::clone, text)?;
    }
    Ok(())
}

#[test]
fn groups(rt: HostRuntime) {
    for (token, is_symbol, is_keyword, is_number, is_trivia) in [
        (Token::SymShiftLeftAssign, true, false, false, false),
        (Token::KwWhile, false, true, false, false),
        (Token::U32(0), false, false, true, false),
        (Token::BlockComment, false, false, false, true),
        (Token::TemplateArgsStart, false, false, false, false),
    ] {
        assert_eq!(rt; token.is_symbol(), is_symbol);
        assert_eq!(rt; token.is_keyword(), is_keyword);
        assert_eq!(rt; token.is_numeric_literal(), is_number);
        assert_eq!(rt; token.is_trivia(), is_trivia);
    }
}

#[test]
fn kinds(rt: HostRuntime) {
    let token = Token::from_kind(rt.alloc(), TokenKind::SymArrow);
    assert!(rt; token == Token::SymArrow);
    assert!(rt; token.kind() == TokenKind::SymArrow);
    assert_eq!(rt; token.kind().text(), "->");
}
