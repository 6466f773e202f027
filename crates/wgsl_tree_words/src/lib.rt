//! The values that are spelled as words of their own, and the operators.
#![tactic(auto)]

mod words_nodes;

pub use words_nodes::{
    AccessMode, AddressSpace, AssignmentOperator, BinaryOperator, BuiltinValue, DiagnosticSeverity,
    InterpolationSampling, InterpolationType, UnaryOperator,
};
