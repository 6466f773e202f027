//! Literals by themselves.

use crate::facts::Facts;
use crate::faults::see_fault;
use std::alloc::AllocError;
use wgsl_lexer::Lexer;
use wgsl_parser::LiteralParser;
use wgsl_tree_expression::LiteralExpression;

/// Sees the literal of a text, or what is wrong with the text.
pub fn see_literal(text: &str, facts: &mut Facts<'_>) -> Result<(), AllocError> {
    let alloc = facts.alloc;
    match LiteralParser::new().parse(alloc, Lexer::new(alloc, text)?) {
        Ok(literal) => see_parts(&literal, facts),
        Err(error) => see_fault(error, text, facts),
    }
}

/// What is printed of a literal, and of its copy, and which variant it is.
fn see_parts(literal: &LiteralExpression, facts: &mut Facts<'_>) -> Result<(), AllocError> {
    let alloc = facts.alloc;
    let printed = literal.to_string(alloc)?;
    facts.compare(literal, &literal.clone(alloc)?, &printed)?;
    facts.tell("variant .", &variant_of(literal))?;
    facts.answer("printed", &printed)
}

fn variant_of(literal: &LiteralExpression) -> &'static str {
    match literal {
        LiteralExpression::Bool(_) => "Bool",
        LiteralExpression::AbstractInt(_) => "AbstractInt",
        LiteralExpression::I32(_) => "I32",
        LiteralExpression::U32(_) => "U32",
        LiteralExpression::AbstractFloat(_) => "AbstractFloat",
        LiteralExpression::F32(_) => "F32",
        LiteralExpression::F16(_) => "F16",
    }
}
