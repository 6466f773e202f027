//! Reading functions, declarations and modules from tokens, a function for each rule of the
//! grammar.
#![tactic(auto)]

mod declaration;
mod function;
mod unit;

pub use declaration::parse_global_declaration;
pub use unit::parse_translation_unit;
pub use wgsl_read_declaration::parse_global_directive;
pub use wgsl_read_statement::parse_statement;
