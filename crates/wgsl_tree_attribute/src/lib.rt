//! Attributes.
#![tactic(auto)]

mod attribute;
mod attributes_before;
mod copies_nodes;
mod custom;
mod diagnostic;
mod interpolate;
mod type_constraint;
mod variants_nodes;
mod workgroup_size;

pub use attribute::{Attribute, AttributeNode, Attributes};
pub use attributes_before::AttributesBefore;
pub use custom::CustomAttribute;
pub use diagnostic::DiagnosticAttribute;
pub use interpolate::InterpolateAttribute;
pub use type_constraint::TypeConstraint;
pub use workgroup_size::WorkgroupSizeAttribute;
