//! Written by tools/tables/node_lists.py from crates/wgsl_model/nodes: the names and attributes of
//! declarations of values and statements that hold no others.

ghost use Rattle.std.specs.Prelude.{Some};
ghost use Rattle.wgsl_tree_expression.specs.View.{ident_name};

use crate::node_parts::{NodeAttributes, NodeName, UnnamedNode};
use wgsl_tree_attribute::Attributes;
use wgsl_tree_expression::Ident;
use wgsl_tree_simple::{
    AssignmentStatement, BreakIfStatement, BreakStatement, ConstAssert, ContinueStatement,
    Declaration, DecrementStatement, DiscardStatement, FunctionCallStatement, IncrementStatement,
    ReturnStatement,
};

impl NodeName for Declaration {
    ghost own_name = { λ node. Some (ident_name node.ident) };

    fn own_ident(&self) -> Option<&Ident> {
        Some(&self.ident)
    }
}

impl NodeAttributes for Declaration {
    ghost list_of = { λ node. Some node.attributes };

    ghost with_list = { λ node list. record node { attributes = list } };

    fn own_attributes(&self) -> Option<&Attributes> {
        Some(&self.attributes)
    }

    fn own_attributes_mut(&mut self) -> Option<&mut Attributes> {
        Some(&mut self.attributes)
    }
}

impl UnnamedNode for AssignmentStatement {}

impl NodeAttributes for AssignmentStatement {
    ghost list_of = { λ node. Some node.attributes };

    ghost with_list = { λ node list. record node { attributes = list } };

    fn own_attributes(&self) -> Option<&Attributes> {
        Some(&self.attributes)
    }

    fn own_attributes_mut(&mut self) -> Option<&mut Attributes> {
        Some(&mut self.attributes)
    }
}

impl UnnamedNode for IncrementStatement {}

impl NodeAttributes for IncrementStatement {
    ghost list_of = { λ node. Some node.attributes };

    ghost with_list = { λ node list. record node { attributes = list } };

    fn own_attributes(&self) -> Option<&Attributes> {
        Some(&self.attributes)
    }

    fn own_attributes_mut(&mut self) -> Option<&mut Attributes> {
        Some(&mut self.attributes)
    }
}

impl UnnamedNode for DecrementStatement {}

impl NodeAttributes for DecrementStatement {
    ghost list_of = { λ node. Some node.attributes };

    ghost with_list = { λ node list. record node { attributes = list } };

    fn own_attributes(&self) -> Option<&Attributes> {
        Some(&self.attributes)
    }

    fn own_attributes_mut(&mut self) -> Option<&mut Attributes> {
        Some(&mut self.attributes)
    }
}

impl UnnamedNode for BreakStatement {}

impl NodeAttributes for BreakStatement {
    ghost list_of = { λ node. Some node.attributes };

    ghost with_list = { λ node list. record node { attributes = list } };

    fn own_attributes(&self) -> Option<&Attributes> {
        Some(&self.attributes)
    }

    fn own_attributes_mut(&mut self) -> Option<&mut Attributes> {
        Some(&mut self.attributes)
    }
}

impl UnnamedNode for BreakIfStatement {}

impl NodeAttributes for BreakIfStatement {
    ghost list_of = { λ node. Some node.attributes };

    ghost with_list = { λ node list. record node { attributes = list } };

    fn own_attributes(&self) -> Option<&Attributes> {
        Some(&self.attributes)
    }

    fn own_attributes_mut(&mut self) -> Option<&mut Attributes> {
        Some(&mut self.attributes)
    }
}

impl UnnamedNode for ContinueStatement {}

impl NodeAttributes for ContinueStatement {
    ghost list_of = { λ node. Some node.attributes };

    ghost with_list = { λ node list. record node { attributes = list } };

    fn own_attributes(&self) -> Option<&Attributes> {
        Some(&self.attributes)
    }

    fn own_attributes_mut(&mut self) -> Option<&mut Attributes> {
        Some(&mut self.attributes)
    }
}

impl UnnamedNode for ReturnStatement {}

impl NodeAttributes for ReturnStatement {
    ghost list_of = { λ node. Some node.attributes };

    ghost with_list = { λ node list. record node { attributes = list } };

    fn own_attributes(&self) -> Option<&Attributes> {
        Some(&self.attributes)
    }

    fn own_attributes_mut(&mut self) -> Option<&mut Attributes> {
        Some(&mut self.attributes)
    }
}

impl UnnamedNode for DiscardStatement {}

impl NodeAttributes for DiscardStatement {
    ghost list_of = { λ node. Some node.attributes };

    ghost with_list = { λ node list. record node { attributes = list } };

    fn own_attributes(&self) -> Option<&Attributes> {
        Some(&self.attributes)
    }

    fn own_attributes_mut(&mut self) -> Option<&mut Attributes> {
        Some(&mut self.attributes)
    }
}

impl UnnamedNode for FunctionCallStatement {}

impl NodeAttributes for FunctionCallStatement {
    ghost list_of = { λ node. Some node.attributes };

    ghost with_list = { λ node list. record node { attributes = list } };

    fn own_attributes(&self) -> Option<&Attributes> {
        Some(&self.attributes)
    }

    fn own_attributes_mut(&mut self) -> Option<&mut Attributes> {
        Some(&mut self.attributes)
    }
}

impl UnnamedNode for ConstAssert {}

impl NodeAttributes for ConstAssert {
    ghost list_of = { λ node. Some node.attributes };

    ghost with_list = { λ node list. record node { attributes = list } };

    fn own_attributes(&self) -> Option<&Attributes> {
        Some(&self.attributes)
    }

    fn own_attributes_mut(&mut self) -> Option<&mut Attributes> {
        Some(&mut self.attributes)
    }
}
