//! Texts, copies, equality and empty items of trees made by hand.

use crate::making::{assert_text, ident, name, text, ty};
use std::alloc::{AllocError, Global};
use std::test::Fail;
use wgsl_parse::FromSource;
use wgsl_span::Spanned;
use wgsl_tree_attribute::Attribute;
use wgsl_tree_expression::{Expression, FunctionCall, Ident, LiteralExpression, TypeExpression};
use wgsl_tree_statement::{
    CompoundStatement, ConstAssert, Declaration, DeclarationKind, ForStatement,
    FunctionCallStatement, ReturnStatement, Statement, StatementNode, WhileStatement,
};
use wgsl_tree_unit::{GlobalDeclaration, Struct, StructMember, TypeAlias};

fn call(alloc: Global, text: &str) -> Result<Statement, AllocError> {
    let call = FunctionCall {
        ty: ty(alloc, text)?,
        arguments: Vec::new(alloc),
    };
    Ok(Statement::from(FunctionCallStatement::from_call(alloc, call)))
}

fn block(alloc: Global, statement: Statement) -> Result<CompoundStatement, AllocError> {
    let mut block = CompoundStatement::new(alloc);
    let node = Spanned::with_default_span(alloc, statement)?;
    block.statements.push(node)?;
    Ok(block)
}

/// A loop whose block calls a name with a line break.
fn repeat(alloc: Global) -> Result<Statement, AllocError> {
    Ok(Statement::from(WhileStatement {
        attributes: Vec::new(alloc),
        condition: name(alloc, "a")?,
        body: block(alloc, call(alloc, "a\nb")?)?,
    }))
}

/// A structure with a member whose name has a line break.
fn structure(alloc: Global) -> Result<Struct, AllocError> {
    let mut structure = Struct::new(alloc, ident(alloc, "S")?);
    let member = StructMember::new(alloc, ident(alloc, "b\nc")?, ty(alloc, "T")?);
    let member = Spanned::with_default_span(alloc, member)?;
    structure.members.push(member)?;
    Ok(structure)
}

#[test]
fn a_name_with_a_line_end_is_indented_in_a_block(rt: HostRuntime) -> Result<(), Fail> {
    let repeat = repeat(rt.alloc())?;
    let text = "while a {\n    a\n    b();\n}";
    assert_text(&rt, rt.alloc(), repeat, Statement::clone, text)
}

#[test]
fn a_name_with_a_line_end_is_indented_in_a_structure(rt: HostRuntime) -> Result<(), Fail> {
    let structure = structure(rt.alloc())?;
    let text = "struct S {\n    b\n    c: T\n}";
    assert_text(&rt, rt.alloc(), structure, Struct::clone, text)
}

#[test]
fn a_type_by_itself_is_printed(rt: HostRuntime) -> Result<(), Fail> {
    let name = ty(rt.alloc(), "foo")?;
    assert_text(&rt, rt.alloc(), name, TypeExpression::clone, "foo")
}

#[test]
fn a_block_by_itself_is_printed(rt: HostRuntime) -> Result<(), Fail> {
    let block = block(rt.alloc(), call(rt.alloc(), "a\nb")?)?;
    let text = "{\n    a\n    b();\n}";
    assert_text(&rt, rt.alloc(), block, CompoundStatement::clone, text)
}

fn node(alloc: Global, statement: Statement) -> Result<StatementNode, AllocError> {
    Spanned::with_default_span(alloc, statement)
}

/// A `for` without a body, whose header begins with the statement and ends with an empty one.
fn header(alloc: Global, first: Statement) -> Result<Statement, AllocError> {
    let first = node(alloc, first)?;
    let last = node(alloc, Statement::Void)?;
    Ok(Statement::from(ForStatement {
        attributes: Vec::new(alloc),
        initializer: Some(first),
        condition: None,
        update: Some(last),
        body: CompoundStatement::new(alloc),
    }))
}

fn variable(alloc: Global) -> Result<Statement, AllocError> {
    Ok(Statement::from(Declaration {
        attributes: Vec::new(alloc),
        kind: DeclarationKind::Var(None),
        ident: ident(alloc, "i")?,
        ty: None,
        initializer: Some(name(alloc, "n")?),
    }))
}

#[test]
fn an_empty_statement_in_a_header_prints_nothing(rt: HostRuntime) -> Result<(), Fail> {
    let repeat = header(rt.alloc(), variable(rt.alloc())?)?;
    let text = "for (var i = n; ; ) {\n\n}";
    assert_text(&rt, rt.alloc(), repeat, Statement::clone, text)
}

#[test]
fn empty_items_leave_a_block(rt: HostRuntime) -> Result<(), Fail> {
    let mut full = block(rt.alloc(), Statement::Void)?;
    full.remove_voids();
    assert!(rt; full.statements.is_empty());
    Ok(())
}

/// A `for` whose header begins with a block of an empty statement.
fn header_with_a_full_block(alloc: Global) -> Result<Statement, AllocError> {
    header(alloc, Statement::from(block(alloc, Statement::Void)?))
}

/// A `for` whose header begins with an empty block.
fn header_with_an_empty_block(alloc: Global) -> Result<Statement, AllocError> {
    header(alloc, Statement::from(CompoundStatement::new(alloc)))
}

/// Empty items leave the block that a header holds, and an empty statement in the header stays.
#[test]
fn empty_items_leave_the_blocks_of_a_header(rt: HostRuntime) -> Result<(), Fail> {
    let mut repeat = header_with_a_full_block(rt.alloc())?;
    let wanted = header_with_an_empty_block(rt.alloc())?;
    assert!(rt; repeat != wanted);
    repeat.remove_voids();
    assert!(rt; repeat == wanted);
    Ok(())
}

#[test]
fn empty_items_by_themselves_are_printed(rt: HostRuntime) -> Result<(), Fail> {
    let alloc = rt.alloc();
    let statement = Statement::from_str(alloc, ";")?;
    assert!(rt; statement.is_void());
    assert_text(&rt, alloc, statement, Statement::clone, ";")?;
    let declaration = GlobalDeclaration::from_str(alloc, ";")?;
    assert!(rt; declaration.is_void());
    assert_text(&rt, alloc, declaration, GlobalDeclaration::clone, ";")
}

#[test]
fn an_assertion_takes_memory(rt: HostRuntime) -> Result<(), Fail> {
    let assertion = ConstAssert::new(rt.alloc(), Expression::from(true))?;
    let text = "const_assert true;";
    assert_text(&rt, rt.alloc(), assertion, ConstAssert::clone, text)
}

#[test]
fn a_returned_node_takes_no_memory(rt: HostRuntime) -> Result<(), Fail> {
    let result = ReturnStatement::from_node(rt.alloc(), name(rt.alloc(), "a")?);
    assert!(rt; result.attributes.is_empty());
    assert_text(&rt, rt.alloc(), result, ReturnStatement::clone, "return a;")
}

#[test]
fn an_alias_has_no_attributes_at_first(rt: HostRuntime) -> Result<(), Fail> {
    let alias = TypeAlias::new(rt.alloc(), ident(rt.alloc(), "A")?, ty(rt.alloc(), "B")?);
    assert!(rt; alias.attributes.is_empty());
    assert_text(&rt, rt.alloc(), alias, TypeAlias::clone, "alias A = B;")
}

#[test]
fn a_returned_value_takes_memory(rt: HostRuntime) -> Result<(), Fail> {
    let result = ReturnStatement::from_expression(rt.alloc(), Expression::from(3i32))?;
    let text = "return 3i;";
    assert_text(&rt, rt.alloc(), result, ReturnStatement::clone, text)
}

#[test]
fn payloads_are_given_out(rt: HostRuntime) {
    let literal = LiteralExpression::from(4u32);
    assert!(rt; literal.is_u32() && !literal.is_i32());
    assert_eq!(rt; literal.unwrap_u32(), 4);
    Attribute::Else.unwrap_else();
}

#[test]
fn names_are_renamed(rt: HostRuntime) -> Result<(), Fail> {
    let mut name = Ident::from(text(rt.alloc(), "a")?);
    name.rename(text(rt.alloc(), "b")?);
    assert_text(&rt, rt.alloc(), name, Ident::clone, "b")
}

#[test]
fn kinds_of_declarations(rt: HostRuntime) {
    assert!(rt; DeclarationKind::from_str("var") == Ok(DeclarationKind::Var(None)));
    assert!(rt; DeclarationKind::from_str("Var") == Err(()));
}
