//! Reading the parts of statements that hold no block, from tokens: what is before a block, and the
//! statements that a `;` ends.
#![tactic(auto)]

mod break_in_loop;
mod clause_head;
mod for_header;
mod head;
mod plain;

pub use break_in_loop::{break_node, parse_break_if_rest};
pub use clause_head::parse_clause_head;
pub use for_header::{ForHeader, parse_for_header};
pub use head::{parse_block_start, parse_block_start_after, parse_condition, parse_switch_head};
pub use plain::{
    begins_plain_statement, parse_break_part, parse_ended_part, parse_plain_statement,
};
