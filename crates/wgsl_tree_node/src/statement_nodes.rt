//! Written by tools/tables/node_lists.py from crates/wgsl_model/nodes: the names and attributes of
//! statements that hold others, and their clauses.

ghost use Rattle.std.specs.Prelude.{Some};
ghost use Rattle.wgsl_tree_node.specs.StatementNodes.{statement_list, statement_with_list};
ghost use Rattle.wgsl_tree_statement.specs.declared.statement.Statement.TheViews.{out-CompoundStatement};
ghost use Rattle.wgsl_tree_statement.specs.declared.statement.Statement.TheViews.{out-ContinuingStatement};
ghost use Rattle.wgsl_tree_statement.specs.declared.statement.Statement.TheViews.{out-ElseClause};
ghost use Rattle.wgsl_tree_statement.specs.declared.statement.Statement.TheViews.{out-ElseIfClause};
ghost use Rattle.wgsl_tree_statement.specs.declared.statement.Statement.TheViews.{out-ForStatement};
ghost use Rattle.wgsl_tree_statement.specs.declared.statement.Statement.TheViews.{out-IfStatement};
ghost use Rattle.wgsl_tree_statement.specs.declared.statement.Statement.TheViews.{out-LoopStatement};
ghost use Rattle.wgsl_tree_statement.specs.declared.statement.Statement.TheViews.{out-SwitchClause};
ghost use Rattle.wgsl_tree_statement.specs.declared.statement.Statement.TheViews.{out-SwitchStatement};
ghost use Rattle.wgsl_tree_statement.specs.declared.statement.Statement.TheViews.{out-WhileStatement};
ghost use Rattle.wgsl_tree_statement.specs.declared.statement.Statement.TheViews.{roll-CompoundStatement};
ghost use Rattle.wgsl_tree_statement.specs.declared.statement.Statement.TheViews.{roll-ContinuingStatement};
ghost use Rattle.wgsl_tree_statement.specs.declared.statement.Statement.TheViews.{roll-ElseClause};
ghost use Rattle.wgsl_tree_statement.specs.declared.statement.Statement.TheViews.{roll-ElseIfClause};
ghost use Rattle.wgsl_tree_statement.specs.declared.statement.Statement.TheViews.{roll-ForStatement};
ghost use Rattle.wgsl_tree_statement.specs.declared.statement.Statement.TheViews.{roll-IfStatement};
ghost use Rattle.wgsl_tree_statement.specs.declared.statement.Statement.TheViews.{roll-LoopStatement};
ghost use Rattle.wgsl_tree_statement.specs.declared.statement.Statement.TheViews.{roll-SwitchClause};
ghost use Rattle.wgsl_tree_statement.specs.declared.statement.Statement.TheViews.{roll-SwitchStatement};
ghost use Rattle.wgsl_tree_statement.specs.declared.statement.Statement.TheViews.{roll-WhileStatement};

use crate::node_parts::{NodeAttributes, UnnamedNode};
use wgsl_tree_attribute::Attributes;
use wgsl_tree_statement::{
    CompoundStatement, ContinuingStatement, ElseClause, ElseIfClause, ForStatement, IfStatement,
    LoopStatement, Statement, SwitchClause, SwitchStatement, WhileStatement,
};

impl NodeAttributes for Statement {
    ghost list_of = { statement_list };

    ghost with_list = { statement_with_list };

    fn own_attributes(&self) -> Option<&Attributes> {
        match self {
            Statement::Void => None,
            Statement::Compound(node) => Some(&node.attributes),
            Statement::Assignment(node) => Some(&node.attributes),
            Statement::Increment(node) => Some(&node.attributes),
            Statement::Decrement(node) => Some(&node.attributes),
            Statement::If(node) => Some(&node.attributes),
            Statement::Switch(node) => Some(&node.attributes),
            Statement::Loop(node) => Some(&node.attributes),
            Statement::For(node) => Some(&node.attributes),
            Statement::While(node) => Some(&node.attributes),
            Statement::Break(node) => Some(&node.attributes),
            Statement::Continue(node) => Some(&node.attributes),
            Statement::Return(node) => Some(&node.attributes),
            Statement::Discard(node) => Some(&node.attributes),
            Statement::FunctionCall(node) => Some(&node.attributes),
            Statement::ConstAssert(node) => Some(&node.attributes),
            Statement::Declaration(node) => Some(&node.attributes),
        }
    }

    fn own_attributes_mut(&mut self) -> Option<&mut Attributes> {
        match self {
            Statement::Void => None,
            Statement::Compound(node) => Some(&mut node.attributes),
            Statement::Assignment(node) => Some(&mut node.attributes),
            Statement::Increment(node) => Some(&mut node.attributes),
            Statement::Decrement(node) => Some(&mut node.attributes),
            Statement::If(node) => Some(&mut node.attributes),
            Statement::Switch(node) => Some(&mut node.attributes),
            Statement::Loop(node) => Some(&mut node.attributes),
            Statement::For(node) => Some(&mut node.attributes),
            Statement::While(node) => Some(&mut node.attributes),
            Statement::Break(node) => Some(&mut node.attributes),
            Statement::Continue(node) => Some(&mut node.attributes),
            Statement::Return(node) => Some(&mut node.attributes),
            Statement::Discard(node) => Some(&mut node.attributes),
            Statement::FunctionCall(node) => Some(&mut node.attributes),
            Statement::ConstAssert(node) => Some(&mut node.attributes),
            Statement::Declaration(node) => Some(&mut node.attributes),
        }
    }
}

impl UnnamedNode for CompoundStatement {}

impl NodeAttributes for CompoundStatement {
    ghost list_of = { λ node. Some (out-CompoundStatement node).attributes };

    ghost with_list = { λ node list. roll-CompoundStatement (record (out-CompoundStatement node) { attributes = list }) };

    fn own_attributes(&self) -> Option<&Attributes> {
        Some(&self.attributes)
    }

    fn own_attributes_mut(&mut self) -> Option<&mut Attributes> {
        Some(&mut self.attributes)
    }
}

impl UnnamedNode for IfStatement {}

impl NodeAttributes for IfStatement {
    ghost list_of = { λ node. Some (out-IfStatement node).attributes };

    ghost with_list = { λ node list. roll-IfStatement (record (out-IfStatement node) { attributes = list }) };

    fn own_attributes(&self) -> Option<&Attributes> {
        Some(&self.attributes)
    }

    fn own_attributes_mut(&mut self) -> Option<&mut Attributes> {
        Some(&mut self.attributes)
    }
}

impl UnnamedNode for ElseIfClause {}

impl NodeAttributes for ElseIfClause {
    ghost list_of = { λ node. Some (out-ElseIfClause node).attributes };

    ghost with_list = { λ node list. roll-ElseIfClause (record (out-ElseIfClause node) { attributes = list }) };

    fn own_attributes(&self) -> Option<&Attributes> {
        Some(&self.attributes)
    }

    fn own_attributes_mut(&mut self) -> Option<&mut Attributes> {
        Some(&mut self.attributes)
    }
}

impl UnnamedNode for ElseClause {}

impl NodeAttributes for ElseClause {
    ghost list_of = { λ node. Some (out-ElseClause node).attributes };

    ghost with_list = { λ node list. roll-ElseClause (record (out-ElseClause node) { attributes = list }) };

    fn own_attributes(&self) -> Option<&Attributes> {
        Some(&self.attributes)
    }

    fn own_attributes_mut(&mut self) -> Option<&mut Attributes> {
        Some(&mut self.attributes)
    }
}

impl UnnamedNode for SwitchStatement {}

impl NodeAttributes for SwitchStatement {
    ghost list_of = { λ node. Some (out-SwitchStatement node).attributes };

    ghost with_list = { λ node list. roll-SwitchStatement (record (out-SwitchStatement node) { attributes = list }) };

    fn own_attributes(&self) -> Option<&Attributes> {
        Some(&self.attributes)
    }

    fn own_attributes_mut(&mut self) -> Option<&mut Attributes> {
        Some(&mut self.attributes)
    }
}

impl UnnamedNode for SwitchClause {}

impl NodeAttributes for SwitchClause {
    ghost list_of = { λ node. Some (out-SwitchClause node).attributes };

    ghost with_list = { λ node list. roll-SwitchClause (record (out-SwitchClause node) { attributes = list }) };

    fn own_attributes(&self) -> Option<&Attributes> {
        Some(&self.attributes)
    }

    fn own_attributes_mut(&mut self) -> Option<&mut Attributes> {
        Some(&mut self.attributes)
    }
}

impl UnnamedNode for LoopStatement {}

impl NodeAttributes for LoopStatement {
    ghost list_of = { λ node. Some (out-LoopStatement node).attributes };

    ghost with_list = { λ node list. roll-LoopStatement (record (out-LoopStatement node) { attributes = list }) };

    fn own_attributes(&self) -> Option<&Attributes> {
        Some(&self.attributes)
    }

    fn own_attributes_mut(&mut self) -> Option<&mut Attributes> {
        Some(&mut self.attributes)
    }
}

impl UnnamedNode for ForStatement {}

impl NodeAttributes for ForStatement {
    ghost list_of = { λ node. Some (out-ForStatement node).attributes };

    ghost with_list = { λ node list. roll-ForStatement (record (out-ForStatement node) { attributes = list }) };

    fn own_attributes(&self) -> Option<&Attributes> {
        Some(&self.attributes)
    }

    fn own_attributes_mut(&mut self) -> Option<&mut Attributes> {
        Some(&mut self.attributes)
    }
}

impl UnnamedNode for WhileStatement {}

impl NodeAttributes for WhileStatement {
    ghost list_of = { λ node. Some (out-WhileStatement node).attributes };

    ghost with_list = { λ node list. roll-WhileStatement (record (out-WhileStatement node) { attributes = list }) };

    fn own_attributes(&self) -> Option<&Attributes> {
        Some(&self.attributes)
    }

    fn own_attributes_mut(&mut self) -> Option<&mut Attributes> {
        Some(&mut self.attributes)
    }
}

impl UnnamedNode for ContinuingStatement {}

impl NodeAttributes for ContinuingStatement {
    ghost list_of = { λ node. Some (out-ContinuingStatement node).attributes };

    ghost with_list = { λ node list. roll-ContinuingStatement (record (out-ContinuingStatement node) { attributes = list }) };

    fn own_attributes(&self) -> Option<&Attributes> {
        Some(&self.attributes)
    }

    fn own_attributes_mut(&mut self) -> Option<&mut Attributes> {
        Some(&mut self.attributes)
    }
}
