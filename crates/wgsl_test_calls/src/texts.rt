//! The two texts of a module: the canonical one, and the one that is formatted for people.

ghost use Rattle.std.specs.Prelude.{◌≡◌, ◌⊎◌, true, IfOk, IfErr, chars, string_bytes};
ghost use Rattle.wgsl_parse.specs.Program.{IsUnit, IsFaultOf};
ghost use Rattle.wgsl_parse.specs.Units.{TranslationUnit};
ghost use Rattle.wgsl_parse.specs.PrintedUnits.{print_unit};
ghost use Rattle.wgsl_parse.specs.KeptPieces.{Keeps};
ghost use Rattle.wgsl_parse.specs.Layout.{standard, crlf};
ghost use Rattle.wgsl_parse.specs.Syntax.{IsFaultAfterMark};
ghost use Rattle.wgsl_parse.specs.Answers.{IsOutOfMemory};
ghost use Rattle.wgsl_parse.specs.ErrorView.{fault_view};

use std::alloc::Global;
use wgsl_parse::error::Error;
use wgsl_parse::parse_str;
use wgsl_parse::tidy::{Indent, Layout, Newlines, tidy, tidy_with};

/// Returns the canonical text of a module.
pub fn formatted(alloc: Global, source: &str) -> Result<String, Error>
    ensures printed { IfOk result (λ text. (unit : TranslationUnit)
        × IsUnit (chars source.now) unit × (string_bytes text ≡ print_unit unit)) }
    ensures refused { IfErr result (λ e.
        IsOutOfMemory e ⊎ IsFaultOf (chars source.now) (fault_view e)) }
{
    let unit = parse_str(alloc, source)?;
    Ok(unit.to_string(alloc)?)
}

/// Returns a module formatted for people, with its comments.
pub fn laid_out(alloc: Global, source: &str) -> Result<String, Error>
    ensures kept { IfOk result (λ text.
        Keeps standard (chars source.now) (chars (string_bytes text))) }
    ensures refused { IfErr result (λ e.
        IsOutOfMemory e ⊎ IsFaultAfterMark (chars source.now) (fault_view e)) }
{
    tidy(alloc, source)
}

/// Returns a module formatted for people, with its comments, with lines of at most `width` columns,
/// a tab of eight columns for each level, and CR LF.
pub fn laid_out_with_tabs(alloc: Global, source: &str, width: usize) -> Result<String, Error>
    ensures kept { IfOk result (λ text.
        Keeps (record { width = width; tabs = true; indent = 8; newlines = crlf })
        (chars source.now) (chars (string_bytes text))) }
{
    let layout = Layout {
        width,
        indent: Indent::Tab(8),
        newlines: Newlines::CrLf,
    };
    tidy_with(alloc, source, layout)
}
