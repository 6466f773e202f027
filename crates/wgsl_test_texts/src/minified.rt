//! Minified modules.

use crate::facts::Facts;
use crate::faults::see_fault;
use std::alloc::{AllocError, Global};
use wgsl_minify::{MinifyOptions, NewNames, Which, minify};

/// Sees a minified module and its new names: those that the first word of an argument asks for, but
/// not the names of the second, which have commas between them.
pub fn see_minified(text: &str, argument: &str, facts: &mut Facts<'_>) -> Result<(), AllocError> {
    let (which, kept) = argument.split_once(' ').unwrap_or((argument, ""));
    let names = match which {
        "all" => Which::All,
        "locals" => Which::Locals,
        _ => Which::None,
    };
    let mut keep = Vec::new(facts.alloc);
    for name in kept.split(',') {
        keep.push(name)?;
    }
    match minify(facts.alloc, text, MinifyOptions { names, keep: &keep }) {
        Ok(minified) => {
            facts.answer("names", &lines_of(facts.alloc, &minified.names)?)?;
            facts.answer("printed", &minified.text)
        }
        Err(error) => see_fault(error, text, facts),
    }
}

/// A line for each name, with its new name.
fn lines_of(alloc: Global, names: &NewNames) -> Result<String, AllocError> {
    let mut lines = String::new(alloc);
    for index in 0..names.len() {
        if let Some((name, new)) = names.get(index) {
            let line_break = if index == 0 { "" } else { "\n" };
            write!(lines, "{line_break}{name} {new}")?;
        }
    }
    Ok(lines)
}
