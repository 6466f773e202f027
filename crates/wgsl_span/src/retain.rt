//! Nodes of a list that a predicate keeps.

ghost use Rattle.std.specs.Fn.{CalledAtMut};
ghost use Rattle.std.specs.List.Retain.{RetainsInTurn};
ghost use Rattle.wgsl_span.specs.Keeps.{NodeCalled};

use crate::Spanned;

/// Keeps the nodes for whose value the predicate returns true, as it left them, in order.
pub fn retain_nodes<T: Drop, F: FnMut(&mut T) -> bool>(nodes: &mut Vec<Spanned<T>>, mut f: F)
    requires { F.IsAlwaysCallable f }
    ensures { RetainsInTurn (NodeCalled (CalledAtMut F.FnMut)) f nodes.old.items nodes.new.items }
{
    let mut kept = 0;
    'nodes: for i in 0..nodes.len() {
        if !f(nodes[i].node_mut()) {
            continue;
        }
        nodes.swap(kept, i);
        kept += 1;
    }
    nodes.truncate(kept);
}
