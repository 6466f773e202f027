//! Paths of modules, and what they are joined with.

use crate::facts::Facts;
use std::alloc::{AllocError, Global};
use wgsl_tree_path::{ModulePath, PathOrigin};

/// Sees the path of a text, or why the text is not one.
pub fn see_path(text: &str, facts: &mut Facts<'_>) -> Result<(), AllocError> {
    let alloc = facts.alloc;
    match ModulePath::from_str(alloc, text) {
        Ok(path) => {
            see_printed(&path, text, facts)?;
            see_parts(&path, facts)?;
            see_laws(&path, facts)?;
            see_joined(&path, facts)
        }
        Err(error) => facts.answer("refused", &error),
    }
}

/// What is printed of a path, and of its copy: the text that was read.
fn see_printed(path: &ModulePath, text: &str, facts: &mut Facts<'_>) -> Result<(), AllocError> {
    let printed = path.to_string(facts.alloc)?;
    facts.expect(printed.as_str() == text, "a path prints as its text")?;
    facts.compare(path, &path.clone(facts.alloc)?, text)?;
    facts.answer("printed", &printed)
}

/// The origin and the components of a path.
fn see_parts(path: &ModulePath, facts: &mut Facts<'_>) -> Result<(), AllocError> {
    let variant = match path.origin {
        PathOrigin::Absolute => "Absolute",
        PathOrigin::Relative(_) => "Relative",
        PathOrigin::Package(_) => "Package",
    };
    facts.tell("variant origin", &variant)?;
    facts.tell("count components", &path.components.len())?;
    for (place, component) in path.components.iter().enumerate() {
        let words = format!(in facts.alloc; "part components.{place}")?;
        facts.tell(&words, component)?;
    }
    Ok(())
}

/// Every path starts with itself, and the path `self` changes nothing on either side of it.
fn see_laws(path: &ModulePath, facts: &mut Facts<'_>) -> Result<(), AllocError> {
    facts.expect(path.starts_with(path), "a path starts with itself")?;
    let this = ModulePath::new(PathOrigin::Relative(0), Vec::new(facts.alloc));
    let after = joined(facts.alloc, path, &this)?;
    let is_same = after.is_some_and(|other| other == *path);
    facts.expect(is_same, "`self` after a path changes nothing")?;
    let before = joined(facts.alloc, &this, path)?;
    let is_same = before.is_some_and(|other| other == *path);
    facts.expect(is_same, "`self` before a path changes nothing")
}

/// The path joined with each suffix that the row asks for.
fn see_joined(path: &ModulePath, facts: &mut Facts<'_>) -> Result<(), AllocError> {
    let row = facts.row;
    for field in row.fields.iter().skip(1) {
        if let Some(suffix) = field.words.strip_prefix("joined ") {
            see_suffix(path, field.words, suffix, facts)?;
        }
    }
    Ok(())
}

/// The path joined with the suffix of this text, under these words.
fn see_suffix(
    path: &ModulePath,
    words: &str,
    text: &str,
    facts: &mut Facts<'_>,
) -> Result<(), AllocError> {
    let alloc = facts.alloc;
    let Ok(suffix) = ModulePath::from_str(alloc, text) else {
        return facts.expect(false, "a suffix is a path");
    };
    match joined(alloc, path, &suffix)? {
        Some(whole) => facts.tell(words, &whole),
        None => facts.expect(false, "the levels of a joined path fit"),
    }
}

/// The path joined with the suffix, unless its levels are too many.
fn joined(
    alloc: Global,
    path: &ModulePath,
    suffix: &ModulePath,
) -> Result<Option<ModulePath>, AllocError> {
    if !path.join_fits(suffix) {
        return Ok(None);
    }
    Ok(Some(path.join_path(alloc, suffix)?))
}
