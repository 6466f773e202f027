//! Declarations of values, and the statements that hold no others.
#![tactic(auto)]

mod assignment;
mod attributes;
mod break_if;
mod call_statement;
mod case_selector;
mod const_assert;
mod copies_nodes;
mod declaration;
mod increment;
mod parts;
mod return_statement;
mod single_word;
mod unended;
mod variants_nodes;

pub use assignment::AssignmentStatement;
pub use attributes::{clone_attributes, write_attribute_line, write_attributes};
pub use break_if::BreakIfStatement;
pub use call_statement::FunctionCallStatement;
pub use case_selector::CaseSelector;
pub use const_assert::{ConstAssert, ConstAssertStatement};
pub use declaration::{Declaration, DeclarationKind, DeclarationStatement};
pub use increment::{DecrementStatement, IncrementStatement};
pub use parts::{
    write_break_if, write_case, write_condition, write_gap, write_head, write_open, write_start,
};
pub use return_statement::ReturnStatement;
pub use single_word::{BreakStatement, ContinueStatement, DiscardStatement};
pub use unended::Unended;
