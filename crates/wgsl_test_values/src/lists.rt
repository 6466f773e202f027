//! Lists of tokens: those of a text, and those before the first fault of a list made by hand.

use std::test::Fail;
use wgsl_error::ParseError;
use wgsl_lex_templates::{OpenBrackets, is_expression_list};
use wgsl_lex_token::kind::TokenKind;
use wgsl_lex_token::token::Token;
use wgsl_lexer::{Lexer, TokenItem, collect_tokens, lex};
use wgsl_span::Span;

#[test]
fn collects_up_to_an_error(rt: HostRuntime) -> Result<(), Fail> {
    let items: Vec<TokenItem> = vec![in rt.alloc();
        Ok((7, Token::KwFn, 9)),
        Err((9, ParseError::DiagnosticSeverity, 4)),
        Ok((10, Token::SymComma, 11)),
    ]?;
    let found = collect_tokens(rt.alloc(), items)?;
    assert_eq!(rt; found.tokens.len(), 1);
    assert_eq!(rt; found.tokens[0].span, Span { start: 7, end: 9 });
    assert!(rt; found.error == Some((9, ParseError::DiagnosticSeverity, 4)));
    Ok(())
}

#[test]
fn reads_a_text_to_its_end(rt: HostRuntime) -> Result<(), Fail> {
    let found = lex(rt.alloc(), "a < b")?;
    assert_eq!(rt; found.tokens.len(), 3);
    assert!(rt; found.tokens[1].token == Token::SymLessThan);
    assert!(rt; found.error.is_none());
    Ok(())
}

/// After the fault that ends the tokens, a lexer and its copy give nothing.
#[test]
fn a_copy_of_a_lexer_gives_what_is_left(rt: HostRuntime) -> Result<(), Fail> {
    let alloc = rt.alloc();
    let mut lexer = Lexer::new(alloc, "a<b>#")?;
    for left in [4, 3, 2, 1, 0] {
        let rest = collect_tokens(alloc, lexer.clone(alloc)?)?;
        assert_eq!(rt; rest.tokens.len(), left);
        assert!(rt; rest.error == Some((4, ParseError::LexerError, 5)));
        lexer.next();
    }
    let mut copy = lexer.clone(alloc)?;
    assert!(rt; lexer.next().is_none() && copy.next().is_none());
    Ok(())
}

/// Kinds that no text gives: in a text a template list has an end and something in it, and the `<`
/// of `a < b > c` opens one.
#[test]
fn kinds_that_no_text_gives_are_no_expressions(rt: HostRuntime) -> Result<(), Fail> {
    let name = TokenKind::Ident;
    let (start, end) = (TokenKind::TemplateArgsStart, TokenKind::TemplateArgsEnd);
    let (less, greater) = (TokenKind::SymLessThan, TokenKind::SymGreaterThan);
    let opened = &mut OpenBrackets::new(rt.alloc());
    assert!(rt; !is_expression_list(&[name, start, name], opened)?);
    assert!(rt; !is_expression_list(&[name, start, end], opened)?);
    assert!(rt; !is_expression_list(&[name, less, name, greater, name], opened)?);
    Ok(())
}
