//! The new names of a module's names.

ghost use Rattle.std.specs.Prelude.{◌≡◌, ◌<◌, All, if◌then◌else◌, IfOk, map};
ghost use Rattle.std.specs.List.{AllPairs};
ghost use Rattle.std.specs.Map.{keys_of};
ghost use Rattle.wgsl_model_names.specs.Scopes.{Names};
ghost use Rattle.wgsl_model_minify.specs.Chosen.{AreLetters, AreNewNames};
ghost use Rattle.wgsl_model_minify.specs.Occurrences.{occurrences};
ghost use Rattle.wgsl_model_minify.specs.Renamed.{all_names, local_names};
ghost use Rattle.wgsl_minify_names.specs.Short.{number_of, IsFresh, NoneFree};
ghost use Rattle.wgsl_minify_names.specs.View.{occurrence_view, table_view, texts, which_view};

use crate::counted::by_count;
use crate::set::set_of;
use crate::short::next_short_name;
use crate::staying::{others, staying_names};
use indexmap::IndexSet;
use std::alloc::{AllocError, Global};
use wgsl_tree_names::Occurrence;

/// The names that get new ones.
#[derive(Clone, Copy, Debug, PartialEq, Eq)]
pub enum Which {
    /// No names.
    None,
    /// Those that are declared in functions alone.
    Locals,
    /// All that are declared.
    All,
}

/// Returns names with their new names: each of a list, in its order, with the next short name that
/// is not in a set.
fn with_new_names(
    alloc: Global,
    names: &[&str],
    taken: &IndexSet<&str>,
) -> Result<Vec<(String, String)>, AllocError>
    ensures names { IfOk result (λ table. keys_of (table_view table.items) ≡ texts names.now) }
    ensures fresh { IfOk result (λ table.
        All (λ pair. IsFresh (texts taken.now.keys) pair.1) (table_view table.items)) }
    ensures letters { IfOk result (λ table. All (λ pair. AreLetters pair.1) (table_view table.items)) }
    ensures rising { IfOk result (λ table.
        AllPairs (λ p q. number_of p.1 < number_of q.1) (table_view table.items)) }
    ensures full { IfOk result (λ table. All
        (λ pair. NoneFree (texts taken.now.keys) (table_view table.items) (number_of pair.1))
        (table_view table.items)) }
{
    let mut table = Vec::new(alloc);
    let mut last = 0;
    for name in names {
        let (number, new) = next_short_name(alloc, last, taken)?;
        table.push((String::from_str(alloc, name)?, new))?;
        last = number;
    }
    Ok(table)
}

/// Returns the names of a module that get new names, with these: with `locals` those that are declared
/// in functions alone, and else all that are declared.
fn new_names<'t>(
    alloc: Global,
    names: &[Occurrence<'t>],
    locals: bool,
    keep: &[&'t str],
) -> Result<Vec<(String, String)>, AllocError>
    ensures { (unit : Names) → map occurrence_view names.now ≡ occurrences unit →
        IfOk result (λ table. AreNewNames (if locals then local_names else all_names) (texts keep.now) unit
        (table_view table.items)) }
{
    let staying = staying_names(alloc, names, locals, keep)?;
    let staying = set_of(alloc, &staying)?;
    let renamed = others(alloc, names, &staying)?;
    let ordered = by_count(alloc, &renamed)?;
    let table = with_new_names(alloc, &ordered, &staying)?;
    Ok(table)
}

/// Returns the names of a module that get new names, with these, from what is met in the module:
/// each name that gets one once, those that occur most often first, and among those that occur
/// equally often the first to occur first. The error is that allocation fails.
///
/// These names stay, and none of them is a new name:
///
/// - those of `keep`;
/// - those of which some use may refer to something outside of the module, also since what declares
///   them is there only under a condition; not where each alternative up to `@else` declares them;
/// - those in arguments of `@if`, of `@elif` and of attributes that the library does not know;
/// - `_`, and the words of address spaces and access modes.
pub fn choose<'t>(
    alloc: Global,
    names: &[Occurrence<'t>],
    which: Which,
    keep: &[&'t str],
) -> Result<Vec<(String, String)>, AllocError>
    ensures { (unit : Names) → map occurrence_view names.now ≡ occurrences unit →
        IfOk result (λ table. AreNewNames (which_view which) (texts keep.now) unit (table_view table.items)) }
{
    match which {
        Which::None => Ok(Vec::new(alloc)),
        Which::Locals => new_names(alloc, names, true, keep),
        Which::All => new_names(alloc, names, false, keep),
    }
}
