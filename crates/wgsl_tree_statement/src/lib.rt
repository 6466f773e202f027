//! Statements.
#![tactic(auto)]

mod compound;
mod continuing;
mod copies_nodes;
mod else_clause;
mod equality_nodes;
mod for_statement;
mod if_statement;
mod loop_statement;
mod statement;
mod switch;
mod variants_nodes;
mod voids_nodes;
mod while_statement;

pub use compound::CompoundStatement;
pub use continuing::ContinuingStatement;
pub use else_clause::{ElseClause, ElseIfClause};
pub use for_statement::ForStatement;
pub use if_statement::{IfClause, IfStatement};
pub use loop_statement::LoopStatement;
pub use statement::{Statement, StatementNode};
pub use switch::{SwitchClause, SwitchStatement};
pub use wgsl_tree_simple::{
    AssignmentStatement, BreakIfStatement, BreakStatement, CaseSelector, ConstAssert,
    ConstAssertStatement, ContinueStatement, Declaration, DeclarationKind, DeclarationStatement,
    DecrementStatement, DiscardStatement, FunctionCallStatement, IncrementStatement,
    ReturnStatement,
};
pub use while_statement::WhileStatement;
