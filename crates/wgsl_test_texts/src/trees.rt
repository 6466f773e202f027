//! Trees: what is printed of them, and how they are read again.

use crate::facts::Facts;
use crate::faults::see_fault;
use crate::kinds::{Tree, json_of};
use crate::parts::see_parts;
use std::alloc::{AllocError, Global};
use wgsl_parser::parse_str;
use wgsl_print_packed::{Notation, print_packed};

/// Sees the tree of a text, or what is wrong with the text.
pub fn see_tree<T: Tree>(text: &str, facts: &mut Facts<'_>) -> Result<(), AllocError> {
    match T::read(facts.alloc, text) {
        Ok(tree) => {
            see_whole(tree, text, facts)?;
            Ok(())
        }
        Err(error) => see_fault(error, text, facts),
    }
}

/// Sees a tree and its nodes, and returns its print, which is read as the tree without its empty
/// items and printed as it is.
pub fn see_whole<T: Tree>(
    mut tree: T,
    text: &str,
    facts: &mut Facts<'_>,
) -> Result<String, AllocError> {
    let printed = see_printed(&tree, text, facts)?;
    facts.answer("printed", &printed)?;
    see_parts(&tree, text, &printed, facts)?;
    tree.clear();
    match T::read(facts.alloc, &printed) {
        Ok(again) => {
            let what = "the print is read as the tree without its empty items";
            facts.expect(again == tree, what)?;
            see_again(&again, &printed, text, facts)?;
        }
        Err(_) => facts.expect(false, "the print is read")?,
    }
    Ok(printed)
}

/// Sees the tree of a print, which is printed as it is. If the text is its own print, the rest has
/// been seen.
fn see_again<T: Tree>(
    tree: &T,
    printed: &str,
    text: &str,
    facts: &mut Facts<'_>,
) -> Result<(), AllocError> {
    let kept = if printed.trim_end() == text {
        tree.to_string(facts.alloc)?
    } else {
        see_printed(tree, printed, facts)?
    };
    facts.expect(kept.as_str() == printed, "the print is printed as it is")
}

/// Returns the print of the tree of a text. That of its packed form, and that in a module, are the
/// same.
pub fn see_printed<T: Tree>(
    tree: &T,
    text: &str,
    facts: &mut Facts<'_>,
) -> Result<String, AllocError> {
    let printed = tree.to_string(facts.alloc)?;
    let form = tree.packed(facts.alloc)?;
    let by_form = print_packed(facts.alloc, Notation::Wgsl, &form);
    let is_same = by_form.is_ok_and(|text| text.as_slice() == printed.as_bytes());
    facts.expect(is_same, "the packed form of a tree prints as the tree does")?;
    see_in_module::<T>(text, &printed, facts)?;
    Ok(printed)
}

/// Sees that the tree of a text is the same in a module around the text, and printed as it is,
/// unless it is a module.
fn see_in_module<T: Tree>(
    text: &str,
    printed: &str,
    facts: &mut Facts<'_>,
) -> Result<(), AllocError> {
    let (alloc, Some(around)) = (facts.alloc, T::around()) else {
        return Ok(());
    };
    let whole = format!(in alloc; "{}{text}{}", around.before, around.after)?;
    let Ok(unit) = parse_str(alloc, &whole) else {
        return facts.expect(false, "a text with a tree is read in a module");
    };
    let moved = T::read(alloc, &moved_text(alloc, text, around.before.len())?);
    let is_same = match (T::in_module(&unit), moved) {
        (Some(there), Ok(moved)) => {
            *there == moved && json_of(alloc, there)? == json_of(alloc, &moved)?
        }
        _ => false,
    };
    facts.expect(is_same, "a tree is the same in a module")?;
    let whole = unit.to_string(alloc)?;
    let part = whole.strip_prefix(around.printed_before);
    let part = part.and_then(|part| part.strip_suffix(around.printed_after));
    let is_same = part.is_some_and(|part| is_indented(part, printed, around.indent));
    facts.expect(is_same, "a tree is printed as in a module")
}

/// Returns a text after a number of blanks, so that its tokens are as many bytes further.
pub fn moved_text(alloc: Global, text: &str, bytes: usize) -> Result<String, AllocError> {
    let mut moved = " ".repeat(alloc, bytes)?;
    moved.push_str(text)?;
    Ok(moved)
}

/// Whether a text has the lines of another one, each that is not empty after an indentation.
fn is_indented(text: &str, printed: &str, indent: &str) -> bool {
    let lines = text
        .split('\n')
        .map(|line| line.strip_prefix(indent).unwrap_or(line));
    lines.eq(printed.split('\n'))
}
