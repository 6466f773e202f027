//! The names that a module uses and declares.

use crate::facts::Facts;
use crate::faults::see_fault;
use std::alloc::{AllocError, Global};
use wgsl_parser::parse_str;
use wgsl_tree_names::{Branch, Occurrence, occurrences};

/// Sees the names of a module, each on a line of its own, what is there under a condition, and where
/// scopes start and end.
pub fn see_names(text: &str, facts: &mut Facts<'_>) -> Result<(), AllocError> {
    match parse_str(facts.alloc, text) {
        Ok(unit) => {
            let found = occurrences(facts.alloc, &unit)?;
            facts.answer("names", &lines_of(facts.alloc, &found)?)
        }
        Err(error) => see_fault(error, text, facts),
    }
}

/// What a condition is called.
fn word_of(branch: Branch) -> &'static str {
    match branch {
        Branch::If => "if",
        Branch::Elif => "elif",
        Branch::Else => "else",
        Branch::Several => "several",
    }
}

/// A line for each.
fn lines_of(alloc: Global, found: &[Occurrence<'_>]) -> Result<String, AllocError> {
    let mut lines = String::new(alloc);
    for occurrence in found {
        if !lines.is_empty() {
            lines.push('\n')?;
        }
        match *occurrence {
            Occurrence::Use(name) => write!(lines, "use {name}")?,
            Occurrence::Unknown(name) => write!(lines, "unknown {name}")?,
            Occurrence::Declaration(name) => write!(lines, "declaration {name}")?,
            Occurrence::Alternative(branch, name) => {
                lines.push_str(word_of(branch))?;
                if let Some(name) = name {
                    write!(lines, " {name}")?;
                }
            }
            Occurrence::ScopeStart => lines.push('{')?,
            Occurrence::ScopeEnd => lines.push('}')?,
        }
    }
    Ok(lines)
}
