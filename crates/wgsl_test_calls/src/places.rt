//! The names of a module with their places.

ghost use Rattle.std.specs.Prelude.{◌≡◌, ◌⊎◌, List, IfOk, IfErr, chars, filter, map};
ghost use Rattle.wgsl_parse.specs.Tokens.{Token};
ghost use Rattle.wgsl_parse.specs.Endings.{Ending.finished};
ghost use Rattle.wgsl_parse.specs.TokenList.{IsTokenList};
ghost use Rattle.wgsl_parse.specs.NamePlaces.{declarations};
ghost use Rattle.wgsl_parse.specs.NameView.{name_view};
ghost use Rattle.wgsl_parse.specs.NamesOfTexts.{AreNamesOf};
ghost use Rattle.wgsl_parse.specs.References.{is_of, place_of};
ghost use Rattle.wgsl_resolve_names.specs.declared.whole.Names.{Names};
ghost use Rattle.wgsl_parse.specs.Syntax.{IsSyntaxFaultOf};
ghost use Rattle.wgsl_parse.specs.Answers.{IsOutOfMemory};
ghost use Rattle.wgsl_parse.specs.ErrorView.{fault_view};

use std::alloc::Global;
use wgsl_parse::error::Error;
use wgsl_parse::names::{Name, names, references};
use wgsl_parse::span::Span;

/// Returns the places of a declaration of a module, by its number, and of its uses.
pub fn uses_of(alloc: Global, source: &str, number: usize) -> Result<Vec<Span>, Error>
    ensures places { IfOk result (λ places. (found : Names) × AreNamesOf (chars source.now) found
        × (places.items ≡ map place_of (filter (is_of number found) found.names.items))) }
{
    let found = names(alloc, source)?;
    Ok(references(alloc, &found, number)?)
}

/// Returns the names that a module declares, each at its number.
pub fn declared_names<'s>(alloc: Global, source: &'s str) -> Result<Vec<Name<'s>>, Error>
    ensures declared { IfOk result (λ found. (ts : List Token)
        × IsTokenList (chars source.now) ts finished × (map name_view found.items ≡ declarations ts)) }
    ensures refused { IfErr result (λ e.
        IsOutOfMemory e ⊎ IsSyntaxFaultOf (chars source.now) (fault_view e)) }
{
    let found = names(alloc, source)?;
    Ok(found.declarations)
}
