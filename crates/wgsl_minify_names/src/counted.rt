//! Names by how often they occur.

ghost use Rattle.std.specs.Prelude.{◌≡◌, ℕ, List, bytes_eq, IfOk};
ghost use Rattle.std.specs.List.{AllPairs, IsDistinct};
ghost use Rattle.indexmap.specs.IndexMap.{keys};
ghost use Rattle.wgsl_minify_names.specs.Counts.{count_in, found_in, same_text};
ghost use Rattle.wgsl_minify_names.specs.Counts.{ComesBefore, IsFirstBefore};
ghost use Rattle.wgsl_minify_names.specs.InScope.{is_in};
ghost use Rattle.wgsl_minify_names.specs.View.{texts};

use indexmap::IndexMap;
use std::alloc::{AllocError, Global};
use std::cmp::Reverse;

/// Returns how often each name occurs, in the order in which the names are first met.
fn counts_of<'t>(alloc: Global, names: &[&'t str]) -> Result<IndexMap<&'t str, usize>, AllocError>
    ensures counts { IfOk result (λ counts. (x : List ℕ) →
        found_in counts.entries x ≡ count_in (texts names.now) x) }
    ensures once { IfOk result (λ counts. IsDistinct same_text (keys counts)) }
    ensures placed { IfOk result (λ counts.
        AllPairs (IsFirstBefore (texts names.now)) (texts (keys counts))) }
{
    let mut counts: IndexMap<&'t str, usize> = IndexMap::new(alloc);
    for name in names {
        let count = counts.get(name).copied().unwrap_or(0);
        counts.insert(*name, count + 1)?;
    }
    Ok(counts)
}

/// Returns the keys of a map, in its order.
fn keys_of<'t>(alloc: Global, counts: IndexMap<&'t str, usize>) -> Result<Vec<&'t str>, AllocError>
    ensures { IfOk result (λ found. found.items ≡ keys counts.entry) }
{
    counts.into_keys().collect(alloc)
}

/// Returns each name once: those that occur more often first, and among those that occur equally
/// often the first to occur first.
pub fn by_count<'t>(alloc: Global, names: &[&'t str]) -> Result<Vec<&'t str>, AllocError>
    ensures same { IfOk result (λ found. (x : List ℕ) → is_in x (texts found.items) ≡ is_in x (texts names.now)) }
    ensures once { IfOk result (λ found. IsDistinct bytes_eq (texts found.items)) }
    ensures ordered { IfOk result (λ found.
        AllPairs (ComesBefore (texts names.now)) (texts found.items)) }
{
    let mut counts = counts_of(alloc, names)?;
    counts.sort_by_key(|_name: &&str, count: &usize| -> Reverse<usize> { Reverse(*count) })?;
    let found = keys_of(alloc, counts)?;
    Ok(found)
}
