//! What has a packed form.

ghost use Rattle.std.specs.Prelude.{◌≡◌, ◌++◌, List, Option, ℕ, map, OnOk, IfOk};
ghost use Rattle.std.specs.Option.{option_map};
ghost use Rattle.wgsl_model_packed.specs.Expressions.{packed_list, packed_optional};

use crate::rules::NOTHING;
use crate::text::{item_rule, pack_rule};
use std::alloc::{AllocError, Global};

/// A part of a tree that has a packed form.
pub trait Pack {
    ghost Plain: { Type 0 };

    ghost view: { Self → Plain };

    ghost packed: { Plain → List ℕ };

    /// Writes the packed form at the end of a vector, unless an allocation fails.
    fn pack(&self, out: &mut Vec<u8>) -> Result<(), AllocError>
    where
        Self: Sized,
        ensures { OnOk result (out.new.items ≡ out.old.items ++ packed (view self.now)) };
}

/// Returns the packed form of a tree, unless an allocation fails. It has a capacity for some bytes
/// at first, which grows if the form is longer.
pub fn packed_form<T: Pack>(alloc: Global, tree: &T, capacity: usize) -> Result<Vec<u8>, AllocError>
    ensures { IfOk result (λ bytes. bytes.items ≡ T.packed (T.view tree.now)) }
{
    let mut bytes = Vec::with_capacity(alloc, capacity)?;
    tree.pack(&mut bytes)?;
    Ok(bytes)
}

/// Writes what may be left out, after the number of a rule.
pub fn pack_optional<T: Pack>(
    rule: u8,
    part: &Option<T>,
    out: &mut Vec<u8>,
) -> Result<(), AllocError>
    ensures { OnOk result (out.new.items
        ≡ out.old.items ++ packed_optional rule T.packed (option_map T.view part.now)) }
{
    match part {
        None => pack_rule(NOTHING, out),
        Some(part) => {
            pack_rule(rule, out)?;
            part.pack(out)
        }
    }
}

/// Writes items one after another, each after the number of a rule: one for the last, one for the
/// others, and one alone if there are no items.
pub fn pack_list<T: Pack>(
    none: u8,
    before: u8,
    last: u8,
    items: &Vec<T>,
    out: &mut Vec<u8>,
) -> Result<(), AllocError>
    ensures { OnOk result (out.new.items
        ≡ out.old.items ++ packed_list none before last T.packed (map T.view items.now.items)) }
{
    let mut left = items.len();
    if left == 0 {
        return pack_rule(none, out);
    }
    'items: for item in items {
        left -= 1;
        pack_rule(item_rule(before, last, left), out)?;
        item.pack(out)?;
    }
    Ok(())
}
