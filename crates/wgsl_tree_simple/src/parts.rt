//! The parts of statements that hold no statements.

ghost use Rattle.std.specs.Prelude.{Some, ◌++◌, IsTrue, codes, map, if◌then◌else◌};
ghost use Rattle.std.specs.Option.{option_map};
ghost use Rattle.wgsl_model.specs.Printed.Joining.{joined};
ghost use Rattle.wgsl_model.specs.Printed.Attributes.{print_attribute_line};
ghost use Rattle.wgsl_model.specs.Printed.Expressions.{print_expression_node};
ghost use Rattle.wgsl_model.specs.Printed.Declarations.{print_condition, print_selector};
ghost use Rattle.wgsl_model.specs.Printed.Statements.{break_if_line};
ghost use Rattle.wgsl_writer.specs.LineEnds.{is_one_line};
ghost use Rattle.wgsl_writer.specs.Writing.{WritesInto};
ghost use Rattle.wgsl_tree_expression.specs.View.{expression_node_view};
ghost use Rattle.wgsl_tree_attribute.specs.View.{attributes_view};
ghost use Rattle.wgsl_tree_simple.specs.View.{break_if_view, selector_view};

use crate::attributes::write_attribute_line;
use crate::break_if::BreakIfStatement;
use crate::case_selector::CaseSelector;
use std::fmt;
use wgsl_tree_attribute::Attributes;
use wgsl_tree_expression::ExpressionNode;
use wgsl_writer::{Indented, write_joined};

/// Writes the word that a statement begins with, on the line below its attributes.
pub fn write_start<W: fmt::Write>(
    attributes: &Attributes,
    word: &str,
    out: &mut Indented<'_, W>,
) -> fmt::Result
    requires { IsTrue (is_one_line word.now) }
    ensures { WritesInto W.write_str_gives out.old result
        (print_attribute_line (attributes_view attributes.now.items) ++ word.now) out.new }
{
    write_attribute_line(attributes, out)?;
    out.write_piece(word)
}

/// Writes the brace that opens a block, on the line below its attributes, and the end of its line.
pub fn write_open<W: fmt::Write>(attributes: &Attributes, out: &mut Indented<'_, W>) -> fmt::Result
    ensures { WritesInto W.write_str_gives out.old result
        (print_attribute_line (attributes_view attributes.now.items) ++ codes "{\n") out.new }
{
    write_attribute_line(attributes, out)?;
    out.write_piece("{")?;
    out.write_line_end()
}

/// Writes a word, and the expression between it and a block.
pub fn write_head<W: fmt::Write>(
    word: &str,
    expression: &ExpressionNode,
    out: &mut Indented<'_, W>,
) -> fmt::Result
    requires { IsTrue (is_one_line word.now) }
    ensures { WritesInto W.write_str_gives out.old result (word.now
        ++ print_expression_node (expression_node_view expression.now) ++ codes " ") out.new }
{
    out.write_piece(word)?;
    out.write_value(expression)?;
    out.write_piece(" ")
}

fn write_expression<W: fmt::Write>(
    expression: &Option<ExpressionNode>,
    out: &mut Indented<'_, W>,
) -> fmt::Result
    ensures { WritesInto W.write_str_gives out.old result
        (print_condition (option_map expression_node_view expression.now)) out.new }
{
    match expression {
        None => Ok(()),
        Some(expression) => out.write_value(expression),
    }
}

/// Writes the condition of a `for`, if there is one, between its semicolons.
pub fn write_condition<W: fmt::Write>(
    condition: &Option<ExpressionNode>,
    out: &mut Indented<'_, W>,
) -> fmt::Result
    ensures { WritesInto W.write_str_gives out.old result (codes "; "
        ++ print_condition (option_map expression_node_view condition.now) ++ codes "; ") out.new }
{
    out.write_piece("; ")?;
    write_expression(condition, out)?;
    out.write_piece("; ")
}

/// Writes `break if`, if it is there, on a line four spaces in.
pub fn write_break_if<W: fmt::Write>(
    statement: &Option<BreakIfStatement>,
    out: &mut Indented<'_, W>,
) -> fmt::Result
    ensures { WritesInto W.write_str_gives out.old result
        (break_if_line (option_map break_if_view statement.now)) out.new }
{
    match statement {
        None => Ok(()),
        Some(statement) => {
            out.indent()?;
            out.write_piece("    ")?;
            out.write_value(statement)?;
            out.unindent();
            out.write_line_end()
        }
    }
}

/// What the clause of a `switch` selects, with `, ` between each two.
#[derive(Drop)]
struct Selectors<'a>(&'a [CaseSelector]);

impl fmt::Display for Selectors<'_> {
    ghost output = { λ list. Some (joined (codes ", ") (map print_selector (map selector_view list.0.now))) };

    fn fmt<W: fmt::Write>(&self, f: &mut fmt::Formatter<W>) -> fmt::Result {
        write_joined(self.0, ", ", f)
    }
}

/// Writes what is before the block of a clause.
pub fn write_case<W: fmt::Write>(
    selectors: &[CaseSelector],
    out: &mut Indented<'_, W>,
) -> fmt::Result
    ensures { WritesInto W.write_str_gives out.old result (codes "case " ++ joined
        (codes ", ") (map print_selector (map selector_view selectors.now)) ++ codes " ") out.new }
{
    out.write_piece("case ")?;
    out.write_value(&Selectors(selectors))?;
    out.write_piece(" ")
}

/// Writes what is before a text in a block: before the first the four spaces, before each other a
/// line break.
pub fn write_gap<W: fmt::Write>(first: bool, out: &mut Indented<'_, W>) -> fmt::Result
    ensures { WritesInto W.write_str_gives out.old result
        (if first then codes "    " else codes "\n") out.new }
{
    if first {
        out.write_piece("    ")
    } else {
        out.write_line_end()
    }
}
