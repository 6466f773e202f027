//! What an `.editorconfig` file says of the WGSL files in its folder and below.
#![tactic(auto)]

mod glob;
mod key;
mod line;
mod reading;
mod value;

ghost use Rattle.std.specs.Prelude.{◌≡◌};
ghost use Rattle.wgsl_editorconfig.specs.Properties.{properties_of};
ghost use Rattle.wgsl_editorconfig.specs.Reading.{read_all};

use line::{Line, without_mark};
pub use reading::Properties;
use reading::Reading;

/// Returns what a file with this text says of WGSL files.
pub fn properties(text: &str) -> Properties
    ensures { result ≡ properties_of text.now }
{
    read(text).properties()
}

/// After all lines of a text.
fn read(text: &str) -> Reading
    ensures { result ≡ read_all text.now }
{
    without_mark(text)
        .split('\n')
        .fold(Reading::nothing(), |so_far, line| {
            so_far.after(Line::of(line.trim()))
        })
}
