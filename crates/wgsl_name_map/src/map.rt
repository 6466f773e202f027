//! Names with their new names as an object.

ghost use Rattle.std.specs.Prelude.{◌≡◌, ◌++◌, IfOk, Some, codes, string_bytes};
ghost use Rattle.std.specs.Fmt.{WritesOnOk};
ghost use Rattle.wgsl_tree_renamed.specs.NewNames.{pairs};
ghost use Rattle.wgsl_name_map.specs.Maps.{map_form};
ghost use Rattle.wgsl_name_map.specs.Texts.{quoted};

use crate::text::write_text;
use std::alloc::{AllocError, Global};
use std::fmt;
use std::fmt::Write;
use wgsl_tree_renamed::NewNames;

/// Names whose JSON is printed.
#[derive(Drop)]
struct NameMap<'n> {
    names: &'n NewNames,
}

impl fmt::Display for NameMap<'_> {
    ghost output = { λ map. Some (map_form (pairs map.names.now)) };

    fn fmt<W: fmt::Write>(&self, f: &mut fmt::Formatter<W>) -> fmt::Result {
        f.write_str("{")?;
        let mut before = "";
        'pairs: for index in 0..self.names.len() {
            if let Some((name, new_name)) = self.names.get(index) {
                f.write_str(before)?;
                write_member(name, new_name, f)?;
                before = ",";
            }
        }
        f.write_str("}")
    }
}

/// Writes a name, and its new name after a colon.
fn write_member<W: fmt::Write>(name: &str, new_name: &str, f: &mut fmt::Formatter<W>) -> fmt::Result
    ensures { WritesOnOk W.write_str_gives f.old result
        (quoted name.now ++ codes ":" ++ quoted new_name.now) f.new }
{
    write_text(name, f)?;
    f.write_str(":")?;
    write_text(new_name, f)
}

/// Returns the JSON of names with their new names, unless allocation fails: an object with a
/// member for each name, in the order of the table, without blank space.
pub fn map_text(alloc: Global, names: &NewNames) -> Result<String, AllocError>
    ensures { IfOk result (λ text. string_bytes text ≡ map_form (pairs names.now)) }
{
    NameMap { names }.to_string(alloc)
}
