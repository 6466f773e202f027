//! What a packed form is printed as: WGSL or JSON.

ghost use Rattle.std.specs.Prelude.{◌≡◌, ◌++◌, Some, None, MatchOption, OnOk};
ghost use Rattle.wgsl_model_packed.specs.Printing.{text_in};
ghost use Rattle.wgsl_print_packed.specs.Notations.{notation_of};
ghost use Rattle.wgsl_print_packed.specs.Printing.{texts};

use crate::json::{write_escaped, write_span};
use crate::rules::{JSON_RULES, RULES};
use crate::writing::write_lines;
use std::alloc::AllocError;

/// What a packed form is printed as.
#[derive(Clone, Copy, Debug, PartialEq, Eq)]
pub enum Notation {
    /// The source of a tree.
    Wgsl,
    /// The JSON of a tree.
    Json,
}

impl Notation {
    /// Returns the text of a rule, by its number.
    pub(crate) fn rule(self, number: u8) -> Option<&'static str>
        ensures { MatchOption result (text_in (notation_of self).texts number ≡ None)
            (λ text. text_in (notation_of self).texts number ≡ Some text.now) }
    {
        match self {
            Notation::Wgsl => text_at(&RULES, number),
            Notation::Json => text_at(&JSON_RULES, number),
        }
    }

    /// Writes a text at a depth.
    pub(crate) fn write_text(
        self,
        text: &[u8],
        depth: usize,
        out: &mut Vec<u8>,
    ) -> Result<(), AllocError>
        ensures { OnOk result (out.new.items ≡
            out.old.items ++ (notation_of self).text depth text.now) }
    {
        match self {
            Notation::Wgsl => write_lines(text, depth, out),
            Notation::Json => write_escaped(text, out),
        }
    }

    /// Writes a span by where it starts and ends.
    pub(crate) fn write_span(
        self,
        start: u64,
        end: u64,
        out: &mut Vec<u8>,
    ) -> Result<(), AllocError>
        ensures { OnOk result (out.new.items ≡
            out.old.items ++ (notation_of self).span (record { start = start; end = end })) }
    {
        match self {
            Notation::Wgsl => Ok(()),
            Notation::Json => write_span(start, end, out),
        }
    }
}

/// Returns the text in a table that has this number.
fn text_at(table: &'static [&'static str], number: u8) -> Option<&'static str>
    ensures { MatchOption result (text_in (texts table.now) number ≡ None)
        (λ text. text_in (texts table.now) number ≡ Some text.now) }
{
    let at = number as usize;
    if at < table.len() {
        Some(table[at])
    } else {
        None
    }
}
