//! Whether uses refer to what they referred to.

ghost use Rattle.std.specs.Prelude.{◌≡◌, ◌≢◌, ◌<◌, length, map, MatchOption};
ghost use Rattle.std.specs.Bool.{Decides};
ghost use Rattle.wgsl_resolve_names.specs.Linked.{referent_view, referents_view};
ghost use Rattle.wgsl_rename.specs.Changes.{refers};

use wgsl_resolve_names::{Named, Referent};

/// Returns whether two referents are the same.
fn is_same(one: Referent<'_>, other: Referent<'_>) -> bool
    ensures { Decides result (referent_view one.entry ≡ referent_view other.entry) }
{
    match (one, other) {
        (Referent::Declaration(one), Referent::Declaration(other)) => one == other,
        (Referent::Outside(one), Referent::Outside(other)) => one == other,
        _ => false,
    }
}

/// Returns whether two lists of referents are the same.
fn are_same(ones: &[Referent<'_>], others: &[Referent<'_>]) -> bool
    ensures { Decides result (referents_view ones.now ≡ referents_view others.now) }
{
    if ones.len() != others.len() {
        return false;
    }
    'referents: for index in 0..ones.len() {
        if !is_same(ones[index], others[index]) {
            return false;
        }
    }
    true
}

/// Returns the number of the first of some names that does not refer to what it referred to before,
/// if there is one.
pub(crate) fn first_changed(before: &[Named<'_>], after: &[Named<'_>]) -> Option<usize>
    requires { length before.now ≡ length after.now }
    ensures { MatchOption result (map refers before.now ≡ map refers after.now) (λ index.
        (index < length before.now) × (map refers before.now ≢ map refers after.now)) }
{
    'names: for index in 0..before.len() {
        if !are_same(&before[index].referents, &after[index].referents) {
            return Some(index);
        }
    }
    None
}
