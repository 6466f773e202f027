//! How a path is read from its text.

ghost use Rattle.std.specs.Prelude.{◌≡◌, ◌∷◌, drop, Some, None, Ok, Err, IfOk, IfErr, IfSome, map, option_copied, string_bytes};
ghost use Rattle.wgsl_model.specs.Tokens.Words.{look_up};
ghost use Rattle.wgsl_model.specs.Trees.Paths as plain;
ghost use Rattle.wgsl_tree_path.specs.View.{plain_path, origin_view, path_view, parse_fault, parts_left};

use crate::{ModulePath, ModulePathParseError, PathOrigin};
use std::alloc::Global;

impl ModulePath {
    /// Reads a path: its parts are between `::`. The first is `package`, `self`, as many `super` as
    /// there are levels to go up, or the name of a package; the others are components, which may be
    /// empty. `Empty` where the first part is empty; where another part is `package`, `self` or
    /// `super`, the fault of the first that is.
    pub fn from_str(alloc: Global, text: &str) -> Result<Self, ModulePathParseError>
        ensures read { IfOk result (λ path. plain.read_path text.now ≡ Ok (path_view path)) }
        ensures refused { IfErr result (λ e.
            IfSome (parse_fault e) (λ fault. plain.read_path text.now ≡ Err fault)) }
    {
        let (first, rest) = first_part(text);
        match first {
            "package" => read_after(alloc, PathOrigin::Absolute, rest),
            "self" => read_after(alloc, PathOrigin::Relative(0), rest),
            "super" => {
                let (levels, rest) = split_levels(text);
                read_after(alloc, PathOrigin::Relative(levels), rest)
            }
            "" => Err(ModulePathParseError::Empty),
            name => {
                let name = String::from_str(alloc, name)?;
                read_after(alloc, PathOrigin::Package(name), rest)
            }
        }
    }
}

/// The part before the first `::` and the text after it, or the whole text.
fn first_part(text: &str) -> (&str, Option<&str>)
    ensures { plain.path_parts text.now ≡ result.0.now ∷ parts_left (option_copied result.1) }
{
    match text.split_once("::") {
        Some((part, rest)) => (part, Some(rest)),
        None => (text, None),
    }
}

/// How many `super` are first, and the text after them.
fn split_levels(text: &str) -> (usize, Option<&str>)
    ensures levels { result.0 ≡ plain.levels (plain.path_parts text.now) }
    ensures rest { let parts = plain.path_parts text.now in
        parts_left (option_copied result.1) ≡ drop (plain.levels parts) parts }
{
    let mut levels = 0;
    let mut left = text;
    'levels: while let Some((part, rest)) = left.split_once("::") {
        if part != "super" {
            return (levels, Some(left));
        }
        levels += 1;
        left = rest;
    }
    if left == "super" {
        (levels + 1, None)
    } else {
        (levels, Some(left))
    }
}

/// Reads the path with this origin, and the parts of the text as its components.
fn read_after(
    alloc: Global,
    origin: PathOrigin,
    rest: Option<&str>,
) -> Result<ModulePath, ModulePathParseError>
    ensures read { let parts = parts_left (option_copied rest.entry) in
        IfOk result (λ path. plain.path_from (origin_view origin) parts ≡ Ok (path_view path)) }
    ensures refused { let parts = parts_left (option_copied rest.entry) in
        IfErr result (λ e. IfSome (parse_fault e) (λ fault.
        plain.path_from (origin_view origin) parts ≡ Err fault)) }
{
    let components = match rest {
        Some(text) => read_components(alloc, text)?,
        None => Vec::new(alloc),
    };
    Ok(ModulePath { origin, components })
}

/// Reads the components after any origin.
fn read_components(alloc: Global, text: &str) -> Result<Vec<String>, ModulePathParseError>
    ensures read { IfOk result (λ names. (origin : plain.PathOrigin)
        → plain.path_from origin (plain.path_parts text.now)
        ≡ Ok (plain_path origin (map string_bytes names.items))) }
    ensures refused { IfErr result (λ e. IfSome (parse_fault e) (λ fault.
        (origin : plain.PathOrigin)
        → plain.path_from origin (plain.path_parts text.now) ≡ Err fault)) }
{
    let mut names = Vec::new(alloc);
    let mut left = text;
    'parts: while let Some((part, rest)) = left.split_once("::") {
        names.push(read_component(alloc, part)?)?;
        left = rest;
    }
    names.push(read_component(alloc, left)?)?;
    Ok(names)
}

/// A component, if the part is none of the words that only begin a path.
fn read_component(alloc: Global, part: &str) -> Result<String, ModulePathParseError>
    ensures name { IfOk result (λ name. string_bytes name ≡ part.now) }
    ensures free { IfOk result (λ _. look_up plain.first_words part.now ≡ None) }
    ensures refused { IfErr result (λ e. IfSome (parse_fault e) (λ fault.
        look_up plain.first_words part.now ≡ Some fault)) }
{
    match part {
        "package" => Err(ModulePathParseError::MisplacedPackage),
        "self" => Err(ModulePathParseError::MisplacedSelf),
        "super" => Err(ModulePathParseError::MisplacedSuper),
        name => Ok(String::from_str(alloc, name)?),
    }
}
