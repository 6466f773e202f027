//! The nodes that have no span, name or attributes of their own: expressions, and the first clause
//! of an `if`; and statements, which have no name, although a declaration among them has one.

use crate::node_parts::{BareNode, UnnamedNode};
use wgsl_tree_expression::{
    BinaryExpression, Expression, FunctionCall, IndexingExpression, LiteralExpression,
    NamedComponentExpression, ParenthesizedExpression, TypeExpression, UnaryExpression,
};
use wgsl_tree_statement::{IfClause, Statement};

impl BareNode for Expression {}

impl BareNode for LiteralExpression {}

impl BareNode for ParenthesizedExpression {}

impl BareNode for NamedComponentExpression {}

impl BareNode for IndexingExpression {}

impl BareNode for UnaryExpression {}

impl BareNode for BinaryExpression {}

impl BareNode for FunctionCall {}

impl BareNode for TypeExpression {}

impl BareNode for IfClause {}

impl UnnamedNode for Statement {}
