//! What the nodes of a tree can do.
#![tactic(auto)]

mod attribute_list;
mod bare;
mod node_parts;
mod simple_nodes;
mod statement_nodes;
mod syntax_node;
mod unit_nodes;

pub use attribute_list::{has_attribute, no_attributes};
pub use node_parts::{BareNode, NodeAttributes, NodeName, UnattributedNode, UnnamedNode};
pub use syntax_node::SyntaxNode;
