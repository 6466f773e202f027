//! The names that declarations and their parts answer as syntax nodes.

use std::alloc::{AllocError, Global};
use std::test::Fail;
use wgsl_parse::syntax::GlobalDeclaration;
use wgsl_parse::{FromSource, SyntaxNode};

/// The name that a node returns; no text where it returns none.
fn name_of<T: SyntaxNode>(alloc: Global, node: &T) -> Result<String, AllocError> {
    match node.ident(alloc)? {
        Some(ident) => ident.to_string(alloc),
        None => Ok(String::new(alloc)),
    }
}

/// The name that the node in a declaration returns.
fn inner_name(alloc: Global, declaration: &GlobalDeclaration) -> Result<String, AllocError> {
    match declaration {
        GlobalDeclaration::Void => Ok(String::new(alloc)),
        GlobalDeclaration::Declaration(node) => name_of(alloc, node),
        GlobalDeclaration::TypeAlias(node) => name_of(alloc, node),
        GlobalDeclaration::Struct(node) => name_of(alloc, node),
        GlobalDeclaration::Function(node) => name_of(alloc, node),
        GlobalDeclaration::ConstAssert(node) => name_of(alloc, node),
    }
}

/// An empty declaration and an assertion answer none, an alias its own and not that of its type.
#[test]
fn declarations_answer_their_names(rt: HostRuntime) -> Result<(), Fail> {
    let alloc = rt.alloc();
    for (text, name) in [
        (";", ""),
        ("@x var<private> a: b = c;", "a"),
        ("alias a = b<c>;", "a"),
        ("struct a { @x b: c }", "a"),
        ("@x fn a(@y b: c) -> @z d { return; }", "a"),
        ("const_assert a;", ""),
    ] {
        let declaration = GlobalDeclaration::from_str(alloc, text)?;
        assert_eq!(rt; name_of(alloc, &declaration)?.as_str(), name, "{text}");
        assert_eq!(rt; inner_name(alloc, &declaration)?.as_str(), name, "{text}");
    }
    Ok(())
}

#[test]
fn members_answer_their_names(rt: HostRuntime) -> Result<(), Fail> {
    let alloc = rt.alloc();
    let text = "struct a { b: c, @x @y(1) d: e }";
    let GlobalDeclaration::Struct(structure) = GlobalDeclaration::from_str(alloc, text)? else {
        return Err(Fail::new("no structure"));
    };
    assert_eq!(rt; structure.members.len(), 2);
    for (member, name) in structure.members.iter().zip(["b", "d"]) {
        assert_eq!(rt; name_of(alloc, member)?.as_str(), name);
        assert_eq!(rt; name_of(alloc, member.node())?.as_str(), name);
    }
    Ok(())
}

#[test]
fn parameters_answer_their_names(rt: HostRuntime) -> Result<(), Fail> {
    let alloc = rt.alloc();
    let text = "fn a(b: c, @x @y(1) d: e) {}";
    let GlobalDeclaration::Function(function) = GlobalDeclaration::from_str(alloc, text)? else {
        return Err(Fail::new("no function"));
    };
    assert_eq!(rt; function.parameters.len(), 2);
    for (parameter, name) in function.parameters.iter().zip(["b", "d"]) {
        assert_eq!(rt; name_of(alloc, parameter)?.as_str(), name);
    }
    Ok(())
}
