//! The parsers over tokens made by hand, from an iterator that counts how often it is asked.

ghost use Rattle.std.specs.Prelude.{length};
ghost use Rattle.std.specs.Iterator.{at_most};
ghost use Rattle.std.proofs.Common.{rules};

use std::alloc::Global;
use std::cell::Cell;
use std::test::Fail;
use wgsl_lex_token::kind::TokenKind;
use wgsl_parse::error::{Error, ErrorKind, ParseError};
use wgsl_parse::lexer::{Lexer, Token, TokenItem, TokenIterator};
use wgsl_parse::parser::{
    ExpressionParser, GlobalDeclParser, GlobalDirectiveParser, LiteralParser, StatementParser,
    TranslationUnitParser, TryTemplateListParser, recognize_template_list,
};
use wgsl_parse::syntax::{Expression, Span};

/// What the iterator gives at a place.
#[derive(Clone, Copy)]
enum Given {
    Kind(TokenKind),
    Name(&'static str),
    InvalidToken,
    Severity,
    FailedAllocation,
}

/// Gives what is listed, each with its start and its end, and counts how often it is asked.
#[derive(Drop)]
struct Listed<'l> {
    alloc: Global,
    asked: &'l Cell<u32>,
    items: &'l [(usize, Given, usize)],
}

impl<'l> Listed<'l> {
    fn new(alloc: Global, asked: &'l Cell<u32>, items: &'l [(usize, Given, usize)]) -> Listed<'l> {
        Listed {
            alloc,
            asked,
            items,
        }
    }
}

impl Iterator for Listed<'_> {
    type Item = TokenItem;

    ghost remaining = { λ listed. at_most (length listed.items.now) };

    fn next(&mut self) -> Option<TokenItem> {
        self.asked.set(self.asked.get().saturating_add(1));
        let ((start, given, end), rest) = self.items.split_first()?;
        self.items = rest;
        let token = match given {
            Given::Kind(kind) => Ok(Token::from_kind(self.alloc, *kind)),
            Given::Name(name) => match String::from_str(self.alloc, name) {
                Ok(name) => Ok(Token::Ident(name)),
                Err(error) => Err(ParseError::from(error)),
            },
            Given::InvalidToken => Err(ParseError::LexerError),
            Given::Severity => Err(ParseError::DiagnosticSeverity),
            Given::FailedAllocation => Err(ParseError::OutOfMemory),
        };
        Some(match token {
            Ok(token) => Ok((*start, token, *end)),
            Err(error) => Err((*start, error, *end)),
        })
    }
}

impl TokenIterator for Listed<'_> {
    ghost is_finite = { Prim.search rules };
}

/// The error of a parser as text, without what was expected.
fn told<T: Drop>(alloc: Global, answer: Result<T, Error>) -> Result<String, Fail> {
    let Some(error) = answer.err() else {
        return Err(Fail::new("no fault"));
    };
    Ok(format!(in alloc; "{}", error.without_expected())?)
}

/// The fault of the tokens, read as an expression.
fn fault_of_expression(alloc: Global, items: &[(usize, Given, usize)]) -> Result<String, Fail> {
    let asked = Cell::new(0u32);
    let tokens = Listed::new(alloc, &asked, items);
    told(alloc, ExpressionParser::new().parse(alloc, tokens))
}

#[test]
fn faults_of_expressions(rt: HostRuntime) -> Result<(), Fail> {
    let name = (0, Given::Kind(TokenKind::Ident), 1);
    let comma = (0, Given::Kind(TokenKind::SymComma), 1);
    for (first, second, wanted) in [
        (
            name,
            (5, Given::Severity, 9),
            "chars 5..9: invalid diagnostic severity",
        ),
        (
            (9, Given::InvalidToken, 4),
            name,
            "chars 9..4: invalid token",
        ),
        (
            comma,
            (1, Given::InvalidToken, 2),
            "chars 0..1: unexpected token `,`",
        ),
        (
            name,
            (1, Given::Kind(TokenKind::BlockComment), 5),
            "chars 1..5: unexpected token `/* block comment */`",
        ),
        (
            name,
            (1, Given::Kind(TokenKind::LineComment), 3),
            "chars 1..3: unexpected token `// line comment`",
        ),
    ] {
        let fault = fault_of_expression(rt.alloc(), &[first, second])?;
        assert_eq!(rt; fault.as_str(), wanted);
    }
    Ok(())
}

/// An error ends what is read: the comma after it is not asked for.
#[test]
fn nothing_is_asked_after_a_wrong_severity(rt: HostRuntime) -> Result<(), Fail> {
    let asked = Cell::new(0u32);
    let items = [
        (0, Given::Name("a"), 1),
        (5, Given::Severity, 9),
        (9, Given::Kind(TokenKind::SymComma), 10),
    ];
    let tokens = Listed::new(rt.alloc(), &asked, &items);
    let fault = told(
        rt.alloc(),
        ExpressionParser::new().parse(rt.alloc(), tokens),
    )?;
    assert_eq!(rt; fault.as_str(), "chars 5..9: invalid diagnostic severity");
    assert_eq!(rt; asked.get(), 2);
    Ok(())
}

#[test]
fn no_tokens_end_too_early(rt: HostRuntime) -> Result<(), Fail> {
    let fault = fault_of_expression(rt.alloc(), &[])?;
    assert_eq!(rt; fault.as_str(), "chars 0..1: unexpected end of file");
    Ok(())
}

#[test]
fn an_end_at_the_greatest_place(rt: HostRuntime) -> Result<(), Fail> {
    let minus = (0, Given::Kind(TokenKind::SymMinus), usize::MAX);
    let fault = fault_of_expression(rt.alloc(), &[minus])?;
    let wanted = "chars 18446744073709551615..18446744073709551615: unexpected end of file";
    assert_eq!(rt; fault.as_str(), wanted);
    Ok(())
}

/// The fault of the tokens, read as a statement.
fn fault_of_statement(alloc: Global, items: &[(usize, Given, usize)]) -> Result<String, Fail> {
    let asked = Cell::new(0u32);
    let tokens = Listed::new(alloc, &asked, items);
    told(alloc, StatementParser::new().parse(alloc, tokens))
}

/// The fault of the tokens, read as a declaration.
fn fault_of_declaration(alloc: Global, items: &[(usize, Given, usize)]) -> Result<String, Fail> {
    let asked = Cell::new(0u32);
    let tokens = Listed::new(alloc, &asked, items);
    told(alloc, GlobalDeclParser::new().parse(alloc, tokens))
}

#[test]
fn faults_of_declarations(rt: HostRuntime) -> Result<(), Fail> {
    for (token, wanted) in [
        (
            (0, Given::Kind(TokenKind::KwFn), usize::MAX),
            "chars 18446744073709551615..18446744073709551615: unexpected end of file",
        ),
        (
            (0, Given::Kind(TokenKind::LineComment), 2),
            "chars 0..2: unexpected token `// line comment`",
        ),
    ] {
        let fault = fault_of_declaration(rt.alloc(), &[token])?;
        assert_eq!(rt; fault.as_str(), wanted);
    }
    Ok(())
}

/// An attribute without its argument is reported before a token that is invalid, but not before a
/// failed allocation.
#[test]
fn errors_after_an_attribute(rt: HostRuntime) -> Result<(), Fail> {
    for (error, wanted) in [
        (
            Given::InvalidToken,
            "chars 0..6: invalid `align` attribute, expected 1 argument",
        ),
        (Given::FailedAllocation, "chars 6..7: out of memory"),
    ] {
        let items = [
            (0, Given::Kind(TokenKind::SymAttr), 1),
            (1, Given::Name("align"), 6),
            (6, error, 7),
        ];
        let fault = fault_of_statement(rt.alloc(), &items)?;
        assert_eq!(rt; fault.as_str(), wanted);
        let fault = fault_of_declaration(rt.alloc(), &items)?;
        assert_eq!(rt; fault.as_str(), wanted);
    }
    Ok(())
}

/// The second minus of `a--b` starts one byte after the first, unless that is the greatest place.
#[test]
fn greatest_places(rt: HostRuntime) -> Result<(), Fail> {
    let asked = Cell::new(0u32);
    let items = [
        (0, Given::Kind(TokenKind::Ident), 1),
        (
            usize::MAX,
            Given::Kind(TokenKind::SymMinusMinus),
            usize::MAX,
        ),
        (2, Given::Kind(TokenKind::Ident), 3),
    ];
    let tokens = Listed::new(rt.alloc(), &asked, &items);
    let difference = ExpressionParser::new().parse(rt.alloc(), tokens)?;
    let Expression::Binary(difference) = difference else {
        return Err(Fail::new("no difference"));
    };
    assert!(rt; difference.right.node().is_unary());
    assert_eq!(rt; difference.right.span(), Span::new(usize::MAX..3));
    Ok(())
}

/// A failed allocation, and a token after it.
fn refused() -> [(usize, Given, usize); 2] {
    [
        (0, Given::FailedAllocation, 0),
        (0, Given::Kind(TokenKind::SymSemicolon), 1),
    ]
}

fn is_out_of_memory<T: Drop>(answer: Result<T, Error>) -> bool {
    match answer.err() {
        Some(error) => error.error == ErrorKind::OutOfMemory,
        None => false,
    }
}

#[test]
fn parsers_of_parts_stop_at_a_failed_allocation(rt: HostRuntime) {
    let alloc = rt.alloc();
    let asked = Cell::new(0u32);
    let items = refused();
    let literal = LiteralParser::new().parse(alloc, Listed::new(alloc, &asked, &items));
    assert!(rt; is_out_of_memory(literal));
    let list = TryTemplateListParser::new().parse(alloc, Listed::new(alloc, &asked, &items));
    assert!(rt; is_out_of_memory(list));
    let recognized = recognize_template_list(alloc, Listed::new(alloc, &asked, &items));
    assert!(rt; is_out_of_memory(recognized));
    assert_eq!(rt; asked.get(), 3);
}

#[test]
fn parsers_of_trees_stop_at_a_failed_allocation(rt: HostRuntime) {
    let alloc = rt.alloc();
    let asked = Cell::new(0u32);
    let items = refused();
    let unit = TranslationUnitParser::new().parse(alloc, Listed::new(alloc, &asked, &items));
    assert!(rt; is_out_of_memory(unit));
    let directive = GlobalDirectiveParser::new().parse(alloc, Listed::new(alloc, &asked, &items));
    assert!(rt; is_out_of_memory(directive));
    let declaration = GlobalDeclParser::new().parse(alloc, Listed::new(alloc, &asked, &items));
    assert!(rt; is_out_of_memory(declaration));
    let statement = StatementParser::new().parse(alloc, Listed::new(alloc, &asked, &items));
    assert!(rt; is_out_of_memory(statement));
    let expression = ExpressionParser::new().parse(alloc, Listed::new(alloc, &asked, &items));
    assert!(rt; is_out_of_memory(expression));
    assert_eq!(rt; asked.get(), 5);
}

/// The tokens of a template list of one name.
fn template_list() -> [(usize, Given, usize); 3] {
    [
        (0, Given::Kind(TokenKind::TemplateArgsStart), 1),
        (1, Given::Kind(TokenKind::Ident), 2),
        (2, Given::Kind(TokenKind::TemplateArgsEnd), 3),
    ]
}

#[test]
fn a_template_list_is_read(rt: HostRuntime) -> Result<(), Fail> {
    let alloc = rt.alloc();
    let asked = Cell::new(0u32);
    let items = template_list();
    let span = TryTemplateListParser::new().parse(alloc, Listed::new(alloc, &asked, &items))?;
    assert_eq!(rt; span, Span::new(0..3));
    recognize_template_list(alloc, Listed::new(alloc, &asked, &items))?;
    Ok(())
}

/// In a text, no template list has a reserved word in it.
#[test]
fn a_reserved_word_in_a_template_list(rt: HostRuntime) -> Result<(), Fail> {
    let asked = Cell::new(0u32);
    let items = [
        (0, Given::Kind(TokenKind::TemplateArgsStart), 1),
        (1, Given::Kind(TokenKind::ReservedWord), 2),
        (2, Given::Kind(TokenKind::TemplateArgsEnd), 3),
    ];
    let tokens = Listed::new(rt.alloc(), &asked, &items);
    let span = TryTemplateListParser::new().parse(rt.alloc(), tokens);
    let fault = told(rt.alloc(), span)?;
    assert_eq!(rt; fault.as_str(), "chars 1..2: use of a reserved word ``");
    Ok(())
}

/// A `<` that does not follow a word is an operator.
#[test]
fn an_operator_is_no_template_list(rt: HostRuntime) -> Result<(), Fail> {
    let asked = Cell::new(0u32);
    let items = [(0, Given::Kind(TokenKind::SymLessThan), 1)];
    let tokens = Listed::new(rt.alloc(), &asked, &items);
    let span = TryTemplateListParser::new().parse(rt.alloc(), tokens);
    let fault = told(rt.alloc(), span)?;
    assert_eq!(rt; fault.as_str(), "chars 0..1: unexpected token `<`");
    let tokens = Listed::new(rt.alloc(), &asked, &items);
    assert!(rt; recognize_template_list(rt.alloc(), tokens).is_err());
    let tokens = Lexer::new(rt.alloc(), "<a>")?;
    let span = TryTemplateListParser::new().parse(rt.alloc(), tokens);
    let fault = told(rt.alloc(), span)?;
    assert_eq!(rt; fault.as_str(), "chars 0..1: unexpected token `<`");
    Ok(())
}
