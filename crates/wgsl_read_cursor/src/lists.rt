//! Lists that are mostly short.
#![tactic(auto)]

ghost use Rattle.std.specs.Prelude.{◌≡◌, [], ◌∷◌, ◌++◌, OnOk};

use std::alloc::{AllocError, Global};

/// How many items the buffer is for that a list is given at first.
const FEW: usize = 2;

/// Adds an item to a list. A list without a buffer is given one for a few items at first: most
/// lists of a shader, arguments and statements of a block among them, are no longer.
pub fn add<T: Drop>(list: &mut Vec<T, Global>, item: T) -> Result<(), AllocError>
    ensures { OnOk result (list.new.items ≡ list.old.items ++ item ∷ []) }
{
    if list.capacity() == 0 {
        list.reserve_exact(FEW)?;
    }
    Ok(list.push(item)?)
}
