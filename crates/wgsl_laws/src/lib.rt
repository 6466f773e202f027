//! Laws of texts, tokens, trees and paths: each is the contract of a function that takes nothing
//! and does nothing.
#![tactic(auto)]

pub mod attribute_equality_nodes;
pub mod attributes_nodes;
pub mod canonical_rows;
pub mod derived_rows;
pub mod equality_nodes;
pub mod expression_equality;
pub mod grammar_laws;
pub mod laid_out;
pub mod name_equality;
pub mod paths;
pub mod printed;
pub mod simple_equality_nodes;
pub mod spelling;
pub mod tokens;
pub mod trees;
pub mod unit_equality_nodes;
