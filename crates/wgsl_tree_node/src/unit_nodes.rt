//! Written by tools/tables/node_lists.py from crates/wgsl_model/nodes: the names and attributes of
//! directives and declarations of modules, and their parts.

ghost use Rattle.std.specs.Prelude.{Some};
ghost use Rattle.wgsl_tree_expression.specs.View.{ident_name};
ghost use Rattle.wgsl_tree_node.specs.NamedNodes.{declared_name};
ghost use Rattle.wgsl_tree_node.specs.UnitNodes.{declaration_list, declaration_with_list};
ghost use Rattle.wgsl_tree_node.specs.UnitNodes.{directive_list, directive_with_list};

use crate::node_parts::{NodeAttributes, NodeName, UnnamedNode};
use wgsl_tree_attribute::Attributes;
use wgsl_tree_expression::Ident;
use wgsl_tree_unit::{
    DiagnosticDirective, EnableDirective, FormalParameter, Function, GlobalDeclaration,
    GlobalDirective, RequiresDirective, Struct, StructMember, TypeAlias,
};

impl UnnamedNode for GlobalDirective {}

impl NodeAttributes for GlobalDirective {
    ghost list_of = { directive_list };

    ghost with_list = { directive_with_list };

    fn own_attributes(&self) -> Option<&Attributes> {
        match self {
            GlobalDirective::Diagnostic(node) => Some(&node.attributes),
            GlobalDirective::Enable(node) => Some(&node.attributes),
            GlobalDirective::Requires(node) => Some(&node.attributes),
        }
    }

    fn own_attributes_mut(&mut self) -> Option<&mut Attributes> {
        match self {
            GlobalDirective::Diagnostic(node) => Some(&mut node.attributes),
            GlobalDirective::Enable(node) => Some(&mut node.attributes),
            GlobalDirective::Requires(node) => Some(&mut node.attributes),
        }
    }
}

impl NodeName for GlobalDeclaration {
    ghost own_name = { declared_name };

    fn own_ident(&self) -> Option<&Ident> {
        match self {
            GlobalDeclaration::Void => None,
            GlobalDeclaration::Declaration(node) => Some(&node.ident),
            GlobalDeclaration::TypeAlias(node) => Some(&node.ident),
            GlobalDeclaration::Struct(node) => Some(&node.ident),
            GlobalDeclaration::Function(node) => Some(&node.ident),
            GlobalDeclaration::ConstAssert(_) => None,
        }
    }
}

impl NodeAttributes for GlobalDeclaration {
    ghost list_of = { declaration_list };

    ghost with_list = { declaration_with_list };

    fn own_attributes(&self) -> Option<&Attributes> {
        match self {
            GlobalDeclaration::Void => None,
            GlobalDeclaration::Declaration(node) => Some(&node.attributes),
            GlobalDeclaration::TypeAlias(node) => Some(&node.attributes),
            GlobalDeclaration::Struct(node) => Some(&node.attributes),
            GlobalDeclaration::Function(node) => Some(&node.attributes),
            GlobalDeclaration::ConstAssert(node) => Some(&node.attributes),
        }
    }

    fn own_attributes_mut(&mut self) -> Option<&mut Attributes> {
        match self {
            GlobalDeclaration::Void => None,
            GlobalDeclaration::Declaration(node) => Some(&mut node.attributes),
            GlobalDeclaration::TypeAlias(node) => Some(&mut node.attributes),
            GlobalDeclaration::Struct(node) => Some(&mut node.attributes),
            GlobalDeclaration::Function(node) => Some(&mut node.attributes),
            GlobalDeclaration::ConstAssert(node) => Some(&mut node.attributes),
        }
    }
}

impl UnnamedNode for DiagnosticDirective {}

impl NodeAttributes for DiagnosticDirective {
    ghost list_of = { λ node. Some node.attributes };

    ghost with_list = { λ node list. record node { attributes = list } };

    fn own_attributes(&self) -> Option<&Attributes> {
        Some(&self.attributes)
    }

    fn own_attributes_mut(&mut self) -> Option<&mut Attributes> {
        Some(&mut self.attributes)
    }
}

impl UnnamedNode for EnableDirective {}

impl NodeAttributes for EnableDirective {
    ghost list_of = { λ node. Some node.attributes };

    ghost with_list = { λ node list. record node { attributes = list } };

    fn own_attributes(&self) -> Option<&Attributes> {
        Some(&self.attributes)
    }

    fn own_attributes_mut(&mut self) -> Option<&mut Attributes> {
        Some(&mut self.attributes)
    }
}

impl UnnamedNode for RequiresDirective {}

impl NodeAttributes for RequiresDirective {
    ghost list_of = { λ node. Some node.attributes };

    ghost with_list = { λ node list. record node { attributes = list } };

    fn own_attributes(&self) -> Option<&Attributes> {
        Some(&self.attributes)
    }

    fn own_attributes_mut(&mut self) -> Option<&mut Attributes> {
        Some(&mut self.attributes)
    }
}

impl NodeName for Struct {
    ghost own_name = { λ node. Some (ident_name node.ident) };

    fn own_ident(&self) -> Option<&Ident> {
        Some(&self.ident)
    }
}

impl NodeAttributes for Struct {
    ghost list_of = { λ node. Some node.attributes };

    ghost with_list = { λ node list. record node { attributes = list } };

    fn own_attributes(&self) -> Option<&Attributes> {
        Some(&self.attributes)
    }

    fn own_attributes_mut(&mut self) -> Option<&mut Attributes> {
        Some(&mut self.attributes)
    }
}

impl NodeName for StructMember {
    ghost own_name = { λ node. Some (ident_name node.ident) };

    fn own_ident(&self) -> Option<&Ident> {
        Some(&self.ident)
    }
}

impl NodeAttributes for StructMember {
    ghost list_of = { λ node. Some node.attributes };

    ghost with_list = { λ node list. record node { attributes = list } };

    fn own_attributes(&self) -> Option<&Attributes> {
        Some(&self.attributes)
    }

    fn own_attributes_mut(&mut self) -> Option<&mut Attributes> {
        Some(&mut self.attributes)
    }
}

impl NodeName for TypeAlias {
    ghost own_name = { λ node. Some (ident_name node.ident) };

    fn own_ident(&self) -> Option<&Ident> {
        Some(&self.ident)
    }
}

impl NodeAttributes for TypeAlias {
    ghost list_of = { λ node. Some node.attributes };

    ghost with_list = { λ node list. record node { attributes = list } };

    fn own_attributes(&self) -> Option<&Attributes> {
        Some(&self.attributes)
    }

    fn own_attributes_mut(&mut self) -> Option<&mut Attributes> {
        Some(&mut self.attributes)
    }
}

impl NodeName for Function {
    ghost own_name = { λ node. Some (ident_name node.ident) };

    fn own_ident(&self) -> Option<&Ident> {
        Some(&self.ident)
    }
}

impl NodeAttributes for Function {
    ghost list_of = { λ node. Some node.attributes };

    ghost with_list = { λ node list. record node { attributes = list } };

    fn own_attributes(&self) -> Option<&Attributes> {
        Some(&self.attributes)
    }

    fn own_attributes_mut(&mut self) -> Option<&mut Attributes> {
        Some(&mut self.attributes)
    }
}

impl NodeName for FormalParameter {
    ghost own_name = { λ node. Some (ident_name node.ident) };

    fn own_ident(&self) -> Option<&Ident> {
        Some(&self.ident)
    }
}

impl NodeAttributes for FormalParameter {
    ghost list_of = { λ node. Some node.attributes };

    ghost with_list = { λ node list. record node { attributes = list } };

    fn own_attributes(&self) -> Option<&Attributes> {
        Some(&self.attributes)
    }

    fn own_attributes_mut(&mut self) -> Option<&mut Attributes> {
        Some(&mut self.attributes)
    }
}
