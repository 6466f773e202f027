//! What every print needs: separators between items, and indentation.
#![tactic(auto)]

mod indented;

ghost use Rattle.std.specs.Fmt.{DisplaysOnOk};
ghost use Rattle.wgsl_writer.specs.Joined.{joined_output};

pub use indented::Indented;
use std::fmt;
use std::fmt::Write;

/// Writes a list with a separator between each two items.
pub fn write_joined<T: fmt::Display, W: fmt::Write>(
    items: &[T],
    separator: &str,
    f: &mut fmt::Formatter<W>,
) -> fmt::Result
    ensures { DisplaysOnOk W.write_str_gives f.old result
        (joined_output T.output separator.now items.now) f.new }
{
    let mut before = "";
    'items: for item in items {
        f.write_str(before)?;
        write!(f, "{item}")?;
        before = separator;
    }
    Ok(())
}
