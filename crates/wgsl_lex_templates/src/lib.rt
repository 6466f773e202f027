//! Where the template lists of a text are (WGSL, "Template Lists").
#![tactic(auto)]

mod attempt;
mod brackets;
mod expression;
mod expression_list;
mod findings;
mod kept;
mod lists;
mod next;
mod operators;
mod reading;
pub mod roles;
mod shortened;
mod steps;
mod templates;
pub mod text;
mod tried;

pub use brackets::OpenBrackets;
pub use expression_list::is_expression_list;
pub use templates::{Templates, discover};
