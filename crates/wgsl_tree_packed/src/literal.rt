//! Literals.

ghost use Rattle.std.specs.Prelude.{◌≡◌, ◌++◌, ◌∷◌, OnOk};
ghost use Rattle.wgsl_model_packed.specs.Expressions.{packed_literal};
ghost use Rattle.wgsl_model_packed.specs.Printing.{packed_text};
ghost use Rattle.wgsl_tree_expression.specs.View.{literal_view};

use crate::rules::{F16, F32, FALSE, FLOAT, I32, INT, TRUE, U32};
use crate::text::{pack_rule, pack_word};
use itoa::{Buffer, Integer};
use std::alloc::AllocError;
use wgsl_tree_expression::LiteralExpression;

/// Writes the packed form of a literal.
pub fn pack_literal(literal: &LiteralExpression, out: &mut Vec<u8>) -> Result<(), AllocError>
    ensures { OnOk result (out.new.items
        ≡ out.old.items ++ packed_literal (literal_view literal.now)) }
{
    match literal {
        LiteralExpression::Bool(true) => pack_rule(TRUE, out),
        LiteralExpression::Bool(false) => pack_rule(FALSE, out),
        LiteralExpression::AbstractInt(value) => pack_decimal(INT, *value, out),
        LiteralExpression::I32(value) => pack_decimal(I32, *value, out),
        LiteralExpression::U32(value) => pack_decimal(U32, *value, out),
        LiteralExpression::AbstractFloat(text) => pack_word(FLOAT, text.as_str(), out),
        LiteralExpression::F32(text) => pack_word(F32, text.as_str(), out),
        LiteralExpression::F16(text) => pack_word(F16, text.as_str(), out),
    }
}

/// Writes the number of a rule, and a number in decimal as a text.
fn pack_decimal<I: Integer>(rule: u8, value: I, out: &mut Vec<u8>) -> Result<(), AllocError>
    ensures { OnOk result (out.new.items
        ≡ out.old.items ++ (rule ∷ packed_text (I.text value))) }
{
    let mut buffer = Buffer::new();
    pack_word(rule, buffer.format(value), out)
}
