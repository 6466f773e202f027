//! Calls that read a tree, copy it, name its nodes, and write a module.

use crate::answers::Answers;
use crate::texts;
use std::alloc::Global;
use std::borrow::CowStr;
use std::fmt;
use wgsl_parse::error::Error;
use wgsl_parse::lexer::Lexer;
use wgsl_parse::minify::{MinifyOptions, Which, minify, shorten};
use wgsl_parse::names::names;
use wgsl_parse::parser::{
    ExpressionParser, GlobalDeclParser, GlobalDirectiveParser, LiteralParser, StatementParser,
    TranslationUnitParser,
};
use wgsl_parse::span::CloneWith;
use wgsl_parse::syntax::{
    Expression, GlobalDeclaration, GlobalDirective, Statement, TranslationUnit,
};
use wgsl_parse::tidy::tidy;
use wgsl_parse::{FromSource, SyntaxNode, parse_str};

/// Makes a parser read the tokens of a text. After it is out of memory the same value reads them
/// again.
macro_rules! parse {
    ($answers:ident, $parser:ident, $text:expr) => {{
        let (alloc, text) = ($answers.alloc, $text);
        let parser = $parser::new();
        $answers.call(stringify!($parser), text, || {
            parser.parse(alloc, Lexer::new(alloc, text)?)
        })
    }};
}

/// Makes a parser read the tokens of each text, and copies what it returns.
macro_rules! parse_and_copy {
    ($answers:ident, $parser:ident, $copy:expr, $texts:expr) => {{
        for text in $texts {
            if let Ok(tree) = parse!($answers, $parser, text) {
                copy($answers, $copy, text, &tree);
            }
        }
    }};
}

/// Copies a tree. Its `clone` calls nothing but its `clone_with`.
fn copy<T: CloneWith + fmt::Debug + Drop>(
    answers: &mut Answers,
    call: &'static str,
    text: &'static str,
    tree: &T,
) {
    let alloc = answers.alloc;
    let _ = answers.call(call, text, || tree.clone_with(alloc));
    answers.see(call, text, tree);
}

/// Reads modules, copies them, and names their declarations.
pub fn make_modules(answers: &mut Answers) {
    let alloc = answers.alloc;
    for text in texts::MODULES {
        let Ok(unit) = parse!(answers, TranslationUnitParser, text) else {
            continue;
        };
        copy(answers, "TranslationUnit::clone", text, &unit);
        for node in unit.global_declarations.iter() {
            let _ = answers.call("SyntaxNode::ident", text, || node.ident(alloc));
        }
    }
}

/// Reads what is not a module, and copies what is wrong with it, also the error with its source.
pub fn make_faults(answers: &mut Answers) {
    let alloc = answers.alloc;
    for text in texts::FAULTS {
        let _ = parse!(answers, TranslationUnitParser, text);
        let source = answers.given("String::from_str", text, || String::from_str(alloc, text));
        let error = answers.call("parse_str", text, || parse_str(alloc, text));
        let (Err(error), Ok(source)) = (error, source) else {
            continue;
        };
        let _ = answers.call("Error::clone", text, || error.clone(alloc));
        answers.see("Error::clone", text, &error);
        let error = error.with_source(CowStr::Owned(source));
        let _ = answers.call("ErrorWithSource::clone", text, || error.clone(alloc));
    }
}

/// Reads directives and declarations, and copies them.
pub fn make_declarations(answers: &mut Answers) {
    let (directive, declaration) = ("GlobalDirective::clone", "GlobalDeclaration::clone");
    parse_and_copy!(answers, GlobalDirectiveParser, directive, texts::DIRECTIVES);
    parse_and_copy!(answers, GlobalDeclParser, declaration, texts::DECLARATIONS);
}

/// Reads statements, and copies them.
pub fn make_statements(answers: &mut Answers) {
    parse_and_copy!(
        answers,
        StatementParser,
        "Statement::clone",
        texts::STATEMENTS
    );
}

/// Reads expressions and literals, and copies the expressions.
pub fn make_expressions(answers: &mut Answers) {
    parse_and_copy!(
        answers,
        ExpressionParser,
        "Expression::clone",
        texts::EXPRESSIONS
    );
    for text in texts::LITERALS {
        let _ = parse!(answers, LiteralParser, text);
    }
}

/// Reads each kind of tree from its text.
pub fn make_sources(answers: &mut Answers) {
    read::<TranslationUnit>(
        answers,
        "TranslationUnit::from_str",
        "@x fn f() { return a; }",
    );
    read::<GlobalDirective>(answers, "GlobalDirective::from_str", "@if(a) enable f16;");
    read::<GlobalDeclaration>(
        answers,
        "GlobalDeclaration::from_str",
        "@if(x) alias a = b<c>;",
    );
    read::<Statement>(answers, "Statement::from_str", "@a if b { c = d; }");
    read::<Expression>(answers, "Expression::from_str", "-a.b[0] + f(c)");
}

fn read<T: FromSource + fmt::Debug + Drop>(
    answers: &mut Answers,
    call: &'static str,
    text: &'static str,
) {
    let alloc = answers.alloc;
    let _ = answers.call(call, text, || T::from_str(alloc, text));
}

/// Writes the text of a module in three ways, and finds its names.
pub fn make_texts(answers: &mut Answers) {
    let (alloc, text) = (answers.alloc, "fn f(a: b) { let c = a; /* d */ f(c); }");
    let _ = answers.call("tidy", text, || tidy(alloc, text));
    let _ = answers.call("shorten", text, || shorten(alloc, text));
    let _ = answers.call("minify", text, || minified(alloc, text));
    let _ = answers.call("names", text, || count_names(alloc, text));
}

/// The minified text, in which a name stays.
fn minified(alloc: Global, text: &str) -> Result<String, Error> {
    let options = MinifyOptions {
        names: Which::All,
        keep: &["f"],
    };
    Ok(minify(alloc, text, options)?.text)
}

/// How many names a module has.
fn count_names(alloc: Global, text: &str) -> Result<usize, Error> {
    Ok(names(alloc, text)?.names.len())
}
