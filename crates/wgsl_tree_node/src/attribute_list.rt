//! What nodes do with their lists of attributes.

ghost use Rattle.std.specs.Prelude.{◌≡◌, []};
ghost use Rattle.std.specs.Borrow.{sem};
ghost use Rattle.std.specs.List.{list_any};
ghost use Rattle.wgsl_span.specs.Spanned.{spanned_node};
ghost use Rattle.wgsl_tree_attribute.specs.Equality.{equal_attributes};
ghost use Rattle.wgsl_tree_node.specs.Lending.{LendsAttributes};

use wgsl_tree_attribute::{Attribute, AttributeNode};

/// Returns whether some attribute of the list is equal to this one.
pub fn has_attribute(attributes: &[AttributeNode], attribute: &Attribute) -> bool
    ensures { result
        ≡ list_any (λ node. equal_attributes (spanned_node node) attribute.now) attributes.now }
{
    attributes.iter().any(|node| *node.node() == *attribute)
}

/// Returns the attributes of a node that has none: an empty list. The node stays as it is.
pub fn no_attributes<Node>(node: &mut Node) -> &mut [AttributeNode]
    ensures* writes_back { sem 𝓛 (LendsAttributes Node.row (λ node _. node) node.entry result) }
    ensures value { result.now ≡ [] }
{
    &mut []
}
