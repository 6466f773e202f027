//! Calls on paths, and calls that make a node of its parts.

use crate::answers::Answers;
use crate::texts;
use std::alloc::{AllocError, Global};
use wgsl_parse::syntax::{
    ConstAssert, Expression, Ident, ModulePath, ModulePathParseError, ReturnStatement, Span,
    Spanned,
};

/// Makes the calls on paths.
pub fn make_paths(answers: &mut Answers) {
    for text in texts::PATHS {
        make_path(answers, text);
    }
}

fn make_path(answers: &mut Answers, text: &'static str) {
    let alloc = answers.alloc;
    let path = answers.call("ModulePath::from_str", text, || {
        ModulePath::from_str(alloc, text)
    });
    let Ok(mut path) = path else {
        return;
    };
    let _ = answers.call("ModulePath::clone", text, || path.clone(alloc));
    let _ = answers.call("PathOrigin::clone", text, || path.origin.clone(alloc));
    answers.see("ModulePath::clone", text, &path);
    let _ = answers.call("ModulePath::join", text, || joined(alloc, &path));
    let _ = answers.call("ModulePath::join_path", text, || join_paths(alloc, &path));
    answers.see("ModulePath::join_path", text, &path);
    answers.change("ModulePath::push", text, &mut path, |path| {
        path.push(alloc, "first")
    });
}

/// The path with two components more.
fn joined(alloc: Global, path: &ModulePath) -> Result<ModulePath, AllocError> {
    let mut names = Vec::new(alloc);
    names.push(String::from_str(alloc, "a")?)?;
    names.push(String::from_str(alloc, "b")?)?;
    path.clone(alloc)?.join(alloc, names)
}

/// The path joined with one a level up, if its levels are not too many.
fn join_paths(
    alloc: Global,
    path: &ModulePath,
) -> Result<Option<ModulePath>, ModulePathParseError> {
    let above = ModulePath::from_str(alloc, "super::a")?;
    if !path.join_fits(&above) {
        return Ok(None);
    }
    Ok(Some(path.join_path(alloc, &above)?))
}

/// Makes the calls that make a node of a name.
pub fn make_nodes(answers: &mut Answers) {
    let (alloc, text) = (answers.alloc, "name");
    let _ = answers.call("ReturnStatement::from_expression", text, || {
        ReturnStatement::from_expression(alloc, Expression::from(ident(alloc, text)?))
    });
    let _ = answers.call("ConstAssert::new", text, || {
        ConstAssert::new(alloc, Expression::from(ident(alloc, text)?))
    });
    let _ = answers.call("Spanned::new", text, || {
        Spanned::new(alloc, ident(alloc, text)?, Span::new(0..text.len()))
    });
    let _ = answers.call("Spanned::with_default_span", text, || {
        Spanned::with_default_span(alloc, ident(alloc, text)?)
    });
}

/// The text as a name.
fn ident(alloc: Global, text: &str) -> Result<Ident, AllocError> {
    Ok(Ident::new(String::from_str(alloc, text)?))
}
