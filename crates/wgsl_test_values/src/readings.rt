//! The parsers over the tokens of texts: each gives what its text gives, and asks nothing after an
//! error.

use crate::making::assert_text;
use crate::watched::Watched;
use std::alloc::Global;
use std::cell::Cell;
use std::fmt;
use std::process::Abort;
use std::test::Fail;
use wgsl_parse::FromSource;
use wgsl_parse::error::Error;
use wgsl_parse::parser::{
    ExpressionParser, GlobalDeclParser, GlobalDirectiveParser, LiteralParser, StatementParser,
    TranslationUnitParser, TryTemplateListParser,
};
use wgsl_parse::span::CloneWith;
use wgsl_parse::syntax::{
    Expression, GlobalDeclaration, GlobalDirective, Statement, TranslationUnit,
};

/// A tree that a parser gives of tokens.
trait Parsed: FromSource + fmt::Display + PartialEq + CloneWith {
    fn parsed(alloc: Global, tokens: Watched<'_>) -> Result<Self, Error>;
}

impl Parsed for TranslationUnit {
    fn parsed(alloc: Global, tokens: Watched<'_>) -> Result<Self, Error> {
        TranslationUnitParser::new().parse(alloc, tokens)
    }
}

impl Parsed for GlobalDirective {
    fn parsed(alloc: Global, tokens: Watched<'_>) -> Result<Self, Error> {
        GlobalDirectiveParser::new().parse(alloc, tokens)
    }
}

impl Parsed for GlobalDeclaration {
    fn parsed(alloc: Global, tokens: Watched<'_>) -> Result<Self, Error> {
        GlobalDeclParser::new().parse(alloc, tokens)
    }
}

impl Parsed for Statement {
    fn parsed(alloc: Global, tokens: Watched<'_>) -> Result<Self, Error> {
        StatementParser::new().parse(alloc, tokens)
    }
}

impl Parsed for Expression {
    fn parsed(alloc: Global, tokens: Watched<'_>) -> Result<Self, Error> {
        ExpressionParser::new().parse(alloc, tokens)
    }
}

/// A tree is printed as the text and has an equal copy, or a fault is told by the text.
fn assert_told<T: fmt::Display + PartialEq + CloneWith>(
    rt: &impl Abort,
    alloc: Global,
    parsed: Result<T, Error>,
    text: &str,
) -> Result<(), Fail> {
    match parsed {
        Ok(tree) => assert_text(rt, alloc, tree, T::clone_with, text),
        Err(error) => assert_text(rt, alloc, error, Error::clone, text),
    }
}

/// A parser gives of the tokens of a text what the text gives: a tree or a fault with this text.
/// After an error it asks nothing.
fn assert_alike<T: Parsed>(
    rt: &impl Abort,
    alloc: Global,
    source: &str,
    text: &str,
) -> Result<(), Fail> {
    let is_asked_after = Cell::new(false);
    let parsed = T::parsed(alloc, Watched::new(alloc, source, &is_asked_after)?);
    assert!(rt; !is_asked_after.get(), "nothing is asked after an error");
    assert!(rt;
        parsed == T::from_str(alloc, source),
        "the tokens of {source:?}"
    );
    assert_told(rt, alloc, parsed, text)
}

#[test]
fn modules_are_read_from_tokens(rt: HostRuntime) -> Result<(), Fail> {
    let alloc = rt.alloc();
    for (source, text) in [
        (
            "@a enable b;; alias A=B<C>; fn e(@y f: g)->h {}",
            "@a\nenable b;\n\nalias A = B<C>;\n\nfn e(@y f: g) -> h {\n\n}\n",
        ),
        (
            "const 1",
            "chars 6..7: unexpected token `1`, expected `identifier`",
        ),
        (
            "const self = 1;",
            "chars 6..10: use of a reserved word `self`",
        ),
        ("const x = 1 #;", "chars 12..13: invalid token"),
    ] {
        assert_alike::<TranslationUnit>(&rt, alloc, source, text)?;
    }
    Ok(())
}

#[test]
fn directives_are_read_from_tokens(rt: HostRuntime) -> Result<(), Fail> {
    let alloc = rt.alloc();
    for (source, text) in [
        (
            "@if(a) diagnostic(off, x.y,);",
            "@if(a)\ndiagnostic (off, x.y);",
        ),
        (
            "diagnostic off",
            "chars 11..14: unexpected token `identifier `off``, expected `(`",
        ),
        (
            "diagnostic(bad, x);",
            "chars 11..14: invalid diagnostic severity",
        ),
        ("enable #;", "chars 7..8: invalid token"),
    ] {
        assert_alike::<GlobalDirective>(&rt, alloc, source, text)?;
    }
    Ok(())
}

#[test]
fn declarations_are_read_from_tokens(rt: HostRuntime) -> Result<(), Fail> {
    let alloc = rt.alloc();
    for (source, text) in [
        (
            "@x struct S { @size(16) a: b, c: d, }",
            "@x\nstruct S {\n    @size(16)\n    a: b,\n    c: d\n}",
        ),
        ("fn f;", "chars 4..5: unexpected token `;`, expected `(`"),
        (
            "@align fn f() {}",
            "chars 0..6: invalid `align` attribute, expected 1 argument",
        ),
        ("const € = 1;", "chars 6..9: invalid token"),
    ] {
        assert_alike::<GlobalDeclaration>(&rt, alloc, source, text)?;
    }
    Ok(())
}

#[test]
fn statements_are_read_from_tokens(rt: HostRuntime) -> Result<(), Fail> {
    let alloc = rt.alloc();
    for (source, text) in [
        (
            "@x if a { b=c; } else if d { e++; } else { return f; }",
            "@x\nif a {\n    b = c;\n}\nelse if d {\n    e++;\n}\nelse {\n    return f;\n}",
        ),
        (
            "discard }",
            "chars 8..9: unexpected token `}`, expected `;`",
        ),
        (
            "var<1> x;",
            "chars 0..6: invalid `var` template arguments, invalid address space",
        ),
        ("a = 2147483648i;", "chars 4..15: invalid token"),
    ] {
        assert_alike::<Statement>(&rt, alloc, source, text)?;
    }
    Ok(())
}

#[test]
fn expressions_are_read_from_tokens(rt: HostRuntime) -> Result<(), Fail> {
    let alloc = rt.alloc();
    for (source, text) in [
        (
            "-a.b[0]+(c)*f<g>(1u,true)==h<i>",
            "-a.b[0] + (c) * f<g>(1u, true) == h<i>",
        ),
        (
            "a.+",
            "chars 2..3: unexpected token `+`, expected `identifier`",
        ),
        ("a + self", "chars 4..8: use of a reserved word `self`"),
        ("a + #", "chars 4..5: invalid token"),
    ] {
        assert_alike::<Expression>(&rt, alloc, source, text)?;
    }
    Ok(())
}

/// What is told of a literal of the tokens of a text.
fn told_of_literal(rt: &impl Abort, alloc: Global, source: &str) -> Result<String, Fail> {
    let is_asked_after = Cell::new(false);
    let tokens = Watched::new(alloc, source, &is_asked_after)?;
    let parsed = LiteralParser::new().parse(alloc, tokens);
    assert!(rt; !is_asked_after.get(), "nothing is asked after an error");
    match parsed {
        Ok(literal) => Ok(literal.to_string(alloc)?),
        Err(error) => Ok(error.to_string(alloc)?),
    }
}

/// Nothing is checked of a literal: a reserved word is unexpected.
#[test]
fn literals_are_read_from_tokens(rt: HostRuntime) -> Result<(), Fail> {
    for (source, text) in [
        ("0X1Fu", "31u"),
        ("4294967296u", "chars 0..11: invalid token"),
        (
            "1 2",
            "chars 2..3: unexpected token `2`, expected `end of file`",
        ),
        (
            "1 self",
            "chars 2..6: unexpected token `reserved word `self``, expected `end of file`",
        ),
    ] {
        let told = told_of_literal(&rt, rt.alloc(), source)?;
        assert_eq!(rt; told.as_str(), text);
    }
    Ok(())
}

/// What is told of the template list after the first token of a text.
fn told_of_list(rt: &impl Abort, alloc: Global, source: &str) -> Result<String, Fail> {
    let is_asked_after = Cell::new(false);
    let mut tokens = Watched::new(alloc, source, &is_asked_after)?;
    tokens.next();
    let parsed = TryTemplateListParser::new().parse(alloc, tokens);
    assert!(rt; !is_asked_after.get(), "nothing is asked after an error");
    match parsed {
        Ok(span) => Ok(format!(in alloc; "{}..{}", span.start, span.end)?),
        Err(error) => Ok(error.to_string(alloc)?),
    }
}

/// The lists are after a name. No list of a text has a checked fault.
#[test]
fn template_lists_are_read_from_tokens(rt: HostRuntime) -> Result<(), Fail> {
    for (source, text) in [
        ("a<b, c>", "1..7"),
        (
            "a<b>c",
            "chars 4..5: unexpected token `identifier `c``, expected `end of file`",
        ),
        ("a<b>#", "chars 4..5: invalid token"),
    ] {
        let told = told_of_list(&rt, rt.alloc(), source)?;
        assert_eq!(rt; told.as_str(), text);
    }
    Ok(())
}
