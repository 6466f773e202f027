//! Where the template lists end that a text is in, the innermost last.

ghost use Rattle.std.specs.Prelude.{◌≡◌, ◌+◌, ◌≤◌, ◌<◌, ◌∷◌, reverse, vec_len, vec_capacity};
ghost use Rattle.wgsl_lexer.specs.OpenLists.{LeavesEnds};

/// Enters a list that ends at the place, for which there is room.
pub(crate) fn enter(ends: &mut Vec<usize>, end: usize)
    requires { vec_len ends.old < vec_capacity ends.old }
    ensures value { reverse ends.new.items ≡ end ∷ reverse ends.old.items }
    ensures len { vec_len ends.new ≡ vec_len ends.old + 1 }
    ensures capacity { vec_capacity ends.old ≤ vec_capacity ends.new }
{
    let _ = ends.push(end);
}

/// Leaves the innermost list if it ends at the place, and returns whether it does.
pub(crate) fn leave(ends: &mut Vec<usize>, place: usize) -> bool
    ensures value { LeavesEnds place (reverse ends.old.items) result (reverse ends.new.items) }
    ensures len { vec_len ends.new ≤ vec_len ends.old }
    ensures capacity { vec_capacity ends.old ≤ vec_capacity ends.new }
{
    let Some(end) = ends.last() else {
        return false;
    };
    if *end != place {
        return false;
    }
    ends.pop();
    true
}
