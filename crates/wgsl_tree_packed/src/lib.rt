//! The packed form of trees, as bytes: exactly that of `wgsl_model_packed`.
#![tactic(auto)]

mod attribute;
mod attribute_nodes;
mod chain;
mod expression;
mod expression_pack;
mod literal;
mod rules;
mod simple;
mod statement;
mod statement_pack;
mod text;
mod traits;
mod unit;
mod words;

pub use traits::{Pack, packed_form};
pub use unit::packed_module;
