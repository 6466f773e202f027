//! The globs that each WGSL file matches.

ghost use Rattle.std.specs.Prelude.{◌≡◌};
ghost use Rattle.std.specs.Option.{option_copied};
ghost use Rattle.wgsl_editorconfig.specs.Globs as plain;

/// Returns whether a glob is known to match each WGSL file.
pub fn matches_wgsl(glob: &str) -> bool
    ensures { result ≡ plain.matches_wgsl glob.now }
{
    is_name(glob) || lists_name(glob) || lists_ending(glob)
}

/// Whether a glob is one of those without braces.
fn is_name(glob: &str) -> bool
    ensures { result ≡ plain.is_name glob.now }
{
    matches!(glob, "*" | "**" | "*.wgsl" | "**.wgsl")
}

/// Whether a glob is a list with one of those.
fn lists_name(glob: &str) -> bool
    ensures { result ≡ plain.lists_name glob.now }
{
    match list_in(glob) {
        Some(list) => list.split(',').any(|part| is_name(part)),
        None => false,
    }
}

/// Whether a glob is `*.` before a list with `wgsl`.
fn lists_ending(glob: &str) -> bool
    ensures { result ≡ plain.lists_ending glob.now }
{
    match glob.strip_prefix("*.") {
        Some(rest) => lists_wgsl(rest),
        None => false,
    }
}

/// Whether a text is a list with `wgsl`.
fn lists_wgsl(text: &str) -> bool
    ensures { result ≡ plain.lists_wgsl text.now }
{
    match list_in(text) {
        Some(list) => list.split(',').any(|part| part == "wgsl"),
        None => false,
    }
}

/// What is in the braces of a list, where a text is one.
fn list_in(text: &str) -> Option<&str>
    ensures { option_copied result ≡ plain.list_in text.now }
{
    let (list, after) = text.strip_prefix('{')?.split_once('}')?;
    if after.is_empty() { Some(list) } else { None }
}
