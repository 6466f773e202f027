//! Written by tools/tables/tree_copies.py from crates/wgsl_model/nodes: copies of nodes.

ghost use Rattle.std.specs.Prelude.{◌≡◌, IfOk};
ghost use Rattle.wgsl_tree_attribute.specs.View.{attribute_view, diagnostic_view, interpolate_view};
ghost use Rattle.wgsl_tree_attribute.specs.View.{workgroup_size_view, type_constraint_view};
ghost use Rattle.wgsl_tree_attribute.specs.View.{custom_view};

use crate::attribute::Attribute;
use crate::custom::CustomAttribute;
use crate::diagnostic::DiagnosticAttribute;
use crate::interpolate::InterpolateAttribute;
use crate::type_constraint::TypeConstraint;
use crate::workgroup_size::WorkgroupSizeAttribute;
use std::alloc::{AllocError, Global};
use wgsl_span::CloneWith;

impl Attribute {
    /// Returns a copy, unless allocation fails.
    pub fn clone(&self, alloc: Global) -> Result<Self, AllocError>
        ensures { IfOk result (λ copy. attribute_view copy ≡ attribute_view self.now) }
    {
        self.clone_with(alloc)
    }
}

impl CloneWith for Attribute {
    ghost copies = { λ node copy. attribute_view copy ≡ attribute_view node };

    fn clone_with(&self, alloc: Global) -> Result<Self, AllocError> {
        match self {
            Attribute::Align(inner) => Ok(Attribute::Align(inner.clone_with(alloc)?)),
            Attribute::Binding(inner) => Ok(Attribute::Binding(inner.clone_with(alloc)?)),
            Attribute::BlendSrc(inner) => Ok(Attribute::BlendSrc(inner.clone_with(alloc)?)),
            Attribute::Group(inner) => Ok(Attribute::Group(inner.clone_with(alloc)?)),
            Attribute::Id(inner) => Ok(Attribute::Id(inner.clone_with(alloc)?)),
            Attribute::Location(inner) => Ok(Attribute::Location(inner.clone_with(alloc)?)),
            Attribute::Size(inner) => Ok(Attribute::Size(inner.clone_with(alloc)?)),
            Attribute::If(inner) => Ok(Attribute::If(inner.clone_with(alloc)?)),
            Attribute::Elif(inner) => Ok(Attribute::Elif(inner.clone_with(alloc)?)),
            Attribute::Builtin(inner) => Ok(Attribute::Builtin(*inner)),
            Attribute::Const => Ok(Attribute::Const),
            Attribute::Invariant => Ok(Attribute::Invariant),
            Attribute::MustUse => Ok(Attribute::MustUse),
            Attribute::Vertex => Ok(Attribute::Vertex),
            Attribute::Fragment => Ok(Attribute::Fragment),
            Attribute::Compute => Ok(Attribute::Compute),
            Attribute::Else => Ok(Attribute::Else),
            Attribute::Diagnostic(inner) => Ok(Attribute::Diagnostic(inner.clone_with(alloc)?)),
            Attribute::Interpolate(inner) => Ok(Attribute::Interpolate(inner.clone_with(alloc)?)),
            Attribute::WorkgroupSize(inner) => {
                Ok(Attribute::WorkgroupSize(inner.clone_with(alloc)?))
            }
            Attribute::TypeConstraint(inner) => {
                Ok(Attribute::TypeConstraint(inner.clone_with(alloc)?))
            }
            Attribute::Custom(inner) => Ok(Attribute::Custom(inner.clone_with(alloc)?)),
        }
    }
}

impl DiagnosticAttribute {
    /// Returns a copy, unless allocation fails.
    pub fn clone(&self, alloc: Global) -> Result<Self, AllocError>
        ensures { IfOk result (λ copy. diagnostic_view copy ≡ diagnostic_view self.now) }
    {
        self.clone_with(alloc)
    }
}

impl CloneWith for DiagnosticAttribute {
    ghost copies = { λ node copy. diagnostic_view copy ≡ diagnostic_view node };

    fn clone_with(&self, alloc: Global) -> Result<Self, AllocError> {
        Ok(DiagnosticAttribute {
            severity: self.severity,
            rule: String::from_str(alloc, self.rule.as_str())?,
        })
    }
}

impl InterpolateAttribute {
    /// Returns a copy, unless allocation fails.
    pub fn clone(&self, alloc: Global) -> Result<Self, AllocError>
        ensures { IfOk result (λ copy. interpolate_view copy ≡ interpolate_view self.now) }
    {
        self.clone_with(alloc)
    }
}

impl CloneWith for InterpolateAttribute {
    ghost copies = { λ node copy. interpolate_view copy ≡ interpolate_view node };

    fn clone_with(&self, alloc: Global) -> Result<Self, AllocError> {
        Ok(InterpolateAttribute {
            ty: self.ty,
            sampling: self.sampling,
        })
    }
}

impl WorkgroupSizeAttribute {
    /// Returns a copy, unless allocation fails.
    pub fn clone(&self, alloc: Global) -> Result<Self, AllocError>
        ensures { IfOk result (λ copy. workgroup_size_view copy ≡ workgroup_size_view self.now) }
    {
        self.clone_with(alloc)
    }
}

impl CloneWith for WorkgroupSizeAttribute {
    ghost copies = { λ node copy. workgroup_size_view copy ≡ workgroup_size_view node };

    fn clone_with(&self, alloc: Global) -> Result<Self, AllocError> {
        Ok(WorkgroupSizeAttribute {
            x: self.x.clone_with(alloc)?,
            y: self.y.clone_with(alloc)?,
            z: self.z.clone_with(alloc)?,
        })
    }
}

impl TypeConstraint {
    /// Returns a copy, unless allocation fails.
    pub fn clone(&self, alloc: Global) -> Result<Self, AllocError>
        ensures { IfOk result (λ copy. type_constraint_view copy ≡ type_constraint_view self.now) }
    {
        self.clone_with(alloc)
    }
}

impl CloneWith for TypeConstraint {
    ghost copies = { λ node copy. type_constraint_view copy ≡ type_constraint_view node };

    fn clone_with(&self, alloc: Global) -> Result<Self, AllocError> {
        Ok(TypeConstraint {
            ident: self.ident.clone_with(alloc)?,
            variants: self.variants.clone_with(alloc)?,
        })
    }
}

impl CustomAttribute {
    /// Returns a copy, unless allocation fails.
    pub fn clone(&self, alloc: Global) -> Result<Self, AllocError>
        ensures { IfOk result (λ copy. custom_view copy ≡ custom_view self.now) }
    {
        self.clone_with(alloc)
    }
}

impl CloneWith for CustomAttribute {
    ghost copies = { λ node copy. custom_view copy ≡ custom_view node };

    fn clone_with(&self, alloc: Global) -> Result<Self, AllocError> {
        Ok(CustomAttribute {
            name: String::from_str(alloc, self.name.as_str())?,
            arguments: self.arguments.clone_with(alloc)?,
        })
    }
}
