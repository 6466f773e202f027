//! New names for the names of a module.

use std::alloc::{AllocError, Global};
use std::test::Fail;
use wgsl_minify_names::{Which, choose};
use wgsl_name_map::map_text;
use wgsl_tree_names::Occurrence;
use wgsl_tree_names::Occurrence::{Declaration, ScopeEnd, ScopeStart, Use};
use wgsl_tree_renamed::NewNames;

/// The names of a module that declares `f` and `g`, and has two functions.
const NAMES: [Occurrence<'static>; 25] = [
    Declaration("f"),
    Declaration("g"),
    Use("u32"),
    ScopeStart,
    Declaration("x"),
    Use("x"),
    Use("y"),
    ScopeStart,
    Declaration("y"),
    Use("y"),
    ScopeEnd,
    Use("x"),
    Use("g"),
    ScopeEnd,
    Use("g"),
    Use("a"),
    Use("g"),
    ScopeStart,
    Declaration("z"),
    ScopeStart,
    Declaration("w"),
    Declaration("z"),
    ScopeEnd,
    Use("z"),
    ScopeEnd,
];

/// Returns names with their new names, each pair as `NAME=NEW `.
fn row(
    alloc: Global,
    names: &[Occurrence<'_>],
    which: Which,
    keep: &[&str],
) -> Result<String, AllocError> {
    let mut text = String::new(alloc);
    for (name, new) in &choose(alloc, names, which, keep)? {
        text.push_str(name.as_str())?;
        text.push_str("=")?;
        text.push_str(new.as_str())?;
        text.push_str(" ")?;
    }
    Ok(text)
}

/// `a` and `y` refer to something outside, and `g` occurs most often.
#[test]
fn names_that_occur_most_often_come_first(rt: HostRuntime) -> Result<(), Fail> {
    let alloc = rt.alloc();
    assert_eq!(rt; row(alloc, &NAMES, Which::None, &[])?.as_str(), "");
    assert_eq!(rt;
        row(alloc, &NAMES, Which::Locals, &[])?.as_str(),
        "x=b z=c w=d "
    );
    assert_eq!(rt;
        row(alloc, &NAMES, Which::All, &["f"])?.as_str(),
        "g=b x=c z=d w=e "
    );
    assert_eq!(rt;
        row(alloc, &NAMES, Which::All, &[])?.as_str(),
        "g=b x=c z=d f=e w=f "
    );
    Ok(())
}

/// A name that is declared in the module as well as in a function is not local.
#[test]
fn words_and_names_of_the_module_stay(rt: HostRuntime) -> Result<(), Fail> {
    let alloc = rt.alloc();
    let names = [
        Declaration("read"),
        Declaration("long"),
        ScopeStart,
        Declaration("long"),
        Use("read"),
        ScopeEnd,
    ];
    assert_eq!(rt; row(alloc, &names, Which::Locals, &[])?.as_str(), "");
    assert_eq!(rt; row(alloc, &names, Which::All, &["a"])?.as_str(), "long=b ");
    Ok(())
}

/// Names keep their order, and texts are written as JSON has them.
#[test]
fn names_are_members(rt: HostRuntime) -> Result<(), Fail> {
    let alloc = rt.alloc();
    let mut names = NewNames::new(alloc);
    assert_eq!(rt; map_text(alloc, &names)?.as_str(), "{}");
    for (name, new) in [("Größe", "a"), ("b", "x\"y"), ("a", "\u{1f}\\")] {
        names.insert(
            String::from_str(alloc, name)?,
            String::from_str(alloc, new)?,
        )?;
    }
    assert_eq!(rt;
        map_text(alloc, &names)?.as_str(),
        "{\"Größe\":\"a\",\"b\":\"x\\\"y\",\"a\":\"\\u001f\\\\\"}"
    );
    Ok(())
}
