//! Written by tools/tables/tree_nodes.py from crates/wgsl_model/nodes: which variant a node is,
//! what it holds, and what becomes one.

ghost use Rattle.std.specs.Prelude.{◌≡◌, IsTrue};
ghost use Rattle.wgsl_tree_attribute.specs.View.{attribute_view};
ghost use Rattle.wgsl_tree_attribute.specs.VariantsNodes.{is_align, is_binding, is_blend_src};
ghost use Rattle.wgsl_tree_attribute.specs.VariantsNodes.{is_group, is_id, is_location, is_size};
ghost use Rattle.wgsl_tree_attribute.specs.VariantsNodes.{is_if, is_elif, is_builtin, is_const};
ghost use Rattle.wgsl_tree_attribute.specs.VariantsNodes.{is_invariant, is_must_use, is_vertex};
ghost use Rattle.wgsl_tree_attribute.specs.VariantsNodes.{is_fragment, is_compute, is_else};
ghost use Rattle.wgsl_tree_attribute.specs.VariantsNodes.{is_diagnostic, is_interpolate};
ghost use Rattle.wgsl_tree_attribute.specs.VariantsNodes.{is_workgroup_size, is_type_constraint};
ghost use Rattle.wgsl_tree_attribute.specs.VariantsNodes.{is_custom};
ghost use Rattle.wgsl_tree_attribute.specs.declared.attribute.Attribute.TheVariants as attribute;

use crate::attribute::Attribute;
use crate::custom::CustomAttribute;
use crate::diagnostic::DiagnosticAttribute;
use crate::interpolate::InterpolateAttribute;
use crate::type_constraint::TypeConstraint;
use crate::workgroup_size::WorkgroupSizeAttribute;
use wgsl_tree_expression::ExpressionNode;
use wgsl_tree_words::BuiltinValue;

impl Attribute {
    /// Returns whether this is `Attribute::Align`.
    pub fn is_align(&self) -> bool
        ensures { result ≡ is_align (attribute_view self.now) }
    {
        matches!(self, Attribute::Align(_))
    }

    /// Returns whether this is `Attribute::Binding`.
    pub fn is_binding(&self) -> bool
        ensures { result ≡ is_binding (attribute_view self.now) }
    {
        matches!(self, Attribute::Binding(_))
    }

    /// Returns whether this is `Attribute::BlendSrc`.
    pub fn is_blend_src(&self) -> bool
        ensures { result ≡ is_blend_src (attribute_view self.now) }
    {
        matches!(self, Attribute::BlendSrc(_))
    }

    /// Returns whether this is `Attribute::Group`.
    pub fn is_group(&self) -> bool
        ensures { result ≡ is_group (attribute_view self.now) }
    {
        matches!(self, Attribute::Group(_))
    }

    /// Returns whether this is `Attribute::Id`.
    pub fn is_id(&self) -> bool
        ensures { result ≡ is_id (attribute_view self.now) }
    {
        matches!(self, Attribute::Id(_))
    }

    /// Returns whether this is `Attribute::Location`.
    pub fn is_location(&self) -> bool
        ensures { result ≡ is_location (attribute_view self.now) }
    {
        matches!(self, Attribute::Location(_))
    }

    /// Returns whether this is `Attribute::Size`.
    pub fn is_size(&self) -> bool
        ensures { result ≡ is_size (attribute_view self.now) }
    {
        matches!(self, Attribute::Size(_))
    }

    /// Returns whether this is `Attribute::If`.
    pub fn is_if(&self) -> bool
        ensures { result ≡ is_if (attribute_view self.now) }
    {
        matches!(self, Attribute::If(_))
    }

    /// Returns whether this is `Attribute::Elif`.
    pub fn is_elif(&self) -> bool
        ensures { result ≡ is_elif (attribute_view self.now) }
    {
        matches!(self, Attribute::Elif(_))
    }

    /// Returns whether this is `Attribute::Builtin`.
    pub fn is_builtin(&self) -> bool
        ensures { result ≡ is_builtin (attribute_view self.now) }
    {
        matches!(self, Attribute::Builtin(_))
    }

    /// Returns whether this is `Attribute::Const`.
    pub fn is_const(&self) -> bool
        ensures { result ≡ is_const (attribute_view self.now) }
    {
        matches!(self, Attribute::Const)
    }

    /// Returns whether this is `Attribute::Invariant`.
    pub fn is_invariant(&self) -> bool
        ensures { result ≡ is_invariant (attribute_view self.now) }
    {
        matches!(self, Attribute::Invariant)
    }

    /// Returns whether this is `Attribute::MustUse`.
    pub fn is_must_use(&self) -> bool
        ensures { result ≡ is_must_use (attribute_view self.now) }
    {
        matches!(self, Attribute::MustUse)
    }

    /// Returns whether this is `Attribute::Vertex`.
    pub fn is_vertex(&self) -> bool
        ensures { result ≡ is_vertex (attribute_view self.now) }
    {
        matches!(self, Attribute::Vertex)
    }

    /// Returns whether this is `Attribute::Fragment`.
    pub fn is_fragment(&self) -> bool
        ensures { result ≡ is_fragment (attribute_view self.now) }
    {
        matches!(self, Attribute::Fragment)
    }

    /// Returns whether this is `Attribute::Compute`.
    pub fn is_compute(&self) -> bool
        ensures { result ≡ is_compute (attribute_view self.now) }
    {
        matches!(self, Attribute::Compute)
    }

    /// Returns whether this is `Attribute::Else`.
    pub fn is_else(&self) -> bool
        ensures { result ≡ is_else (attribute_view self.now) }
    {
        matches!(self, Attribute::Else)
    }

    /// Returns whether this is `Attribute::Diagnostic`.
    pub fn is_diagnostic(&self) -> bool
        ensures { result ≡ is_diagnostic (attribute_view self.now) }
    {
        matches!(self, Attribute::Diagnostic(_))
    }

    /// Returns whether this is `Attribute::Interpolate`.
    pub fn is_interpolate(&self) -> bool
        ensures { result ≡ is_interpolate (attribute_view self.now) }
    {
        matches!(self, Attribute::Interpolate(_))
    }

    /// Returns whether this is `Attribute::WorkgroupSize`.
    pub fn is_workgroup_size(&self) -> bool
        ensures { result ≡ is_workgroup_size (attribute_view self.now) }
    {
        matches!(self, Attribute::WorkgroupSize(_))
    }

    /// Returns whether this is `Attribute::TypeConstraint`.
    pub fn is_type_constraint(&self) -> bool
        ensures { result ≡ is_type_constraint (attribute_view self.now) }
    {
        matches!(self, Attribute::TypeConstraint(_))
    }

    /// Returns whether this is `Attribute::Custom`.
    pub fn is_custom(&self) -> bool
        ensures { result ≡ is_custom (attribute_view self.now) }
    {
        matches!(self, Attribute::Custom(_))
    }

    /// Returns what this `Attribute::Align` holds.
    pub fn unwrap_align(self) -> ExpressionNode
        requires { IsTrue (is_align (attribute_view self)) }
        ensures { self ≡ attribute.Align result }
    {
        let Attribute::Align(inner) = self else {
            unreachable!()
        };
        inner
    }

    /// Returns what this `Attribute::Binding` holds.
    pub fn unwrap_binding(self) -> ExpressionNode
        requires { IsTrue (is_binding (attribute_view self)) }
        ensures { self ≡ attribute.Binding result }
    {
        let Attribute::Binding(inner) = self else {
            unreachable!()
        };
        inner
    }

    /// Returns what this `Attribute::BlendSrc` holds.
    pub fn unwrap_blend_src(self) -> ExpressionNode
        requires { IsTrue (is_blend_src (attribute_view self)) }
        ensures { self ≡ attribute.BlendSrc result }
    {
        let Attribute::BlendSrc(inner) = self else {
            unreachable!()
        };
        inner
    }

    /// Returns what this `Attribute::Group` holds.
    pub fn unwrap_group(self) -> ExpressionNode
        requires { IsTrue (is_group (attribute_view self)) }
        ensures { self ≡ attribute.Group result }
    {
        let Attribute::Group(inner) = self else {
            unreachable!()
        };
        inner
    }

    /// Returns what this `Attribute::Id` holds.
    pub fn unwrap_id(self) -> ExpressionNode
        requires { IsTrue (is_id (attribute_view self)) }
        ensures { self ≡ attribute.Id result }
    {
        let Attribute::Id(inner) = self else {
            unreachable!()
        };
        inner
    }

    /// Returns what this `Attribute::Location` holds.
    pub fn unwrap_location(self) -> ExpressionNode
        requires { IsTrue (is_location (attribute_view self)) }
        ensures { self ≡ attribute.Location result }
    {
        let Attribute::Location(inner) = self else {
            unreachable!()
        };
        inner
    }

    /// Returns what this `Attribute::Size` holds.
    pub fn unwrap_size(self) -> ExpressionNode
        requires { IsTrue (is_size (attribute_view self)) }
        ensures { self ≡ attribute.Size result }
    {
        let Attribute::Size(inner) = self else {
            unreachable!()
        };
        inner
    }

    /// Returns what this `Attribute::If` holds.
    pub fn unwrap_if(self) -> ExpressionNode
        requires { IsTrue (is_if (attribute_view self)) }
        ensures { self ≡ attribute.If result }
    {
        let Attribute::If(inner) = self else {
            unreachable!()
        };
        inner
    }

    /// Returns what this `Attribute::Elif` holds.
    pub fn unwrap_elif(self) -> ExpressionNode
        requires { IsTrue (is_elif (attribute_view self)) }
        ensures { self ≡ attribute.Elif result }
    {
        let Attribute::Elif(inner) = self else {
            unreachable!()
        };
        inner
    }

    /// Returns what this `Attribute::Builtin` holds.
    pub fn unwrap_builtin(self) -> BuiltinValue
        requires { IsTrue (is_builtin (attribute_view self)) }
        ensures { self ≡ attribute.Builtin result }
    {
        let Attribute::Builtin(inner) = self else {
            unreachable!()
        };
        inner
    }

    /// Consumes this `Attribute::Const`, which holds nothing.
    pub fn unwrap_const(self)
        requires { IsTrue (is_const (attribute_view self)) }
        ensures { self ≡ attribute.Const }
    {
        let Attribute::Const = self else {
            unreachable!()
        };
    }

    /// Consumes this `Attribute::Invariant`, which holds nothing.
    pub fn unwrap_invariant(self)
        requires { IsTrue (is_invariant (attribute_view self)) }
        ensures { self ≡ attribute.Invariant }
    {
        let Attribute::Invariant = self else {
            unreachable!()
        };
    }

    /// Consumes this `Attribute::MustUse`, which holds nothing.
    pub fn unwrap_must_use(self)
        requires { IsTrue (is_must_use (attribute_view self)) }
        ensures { self ≡ attribute.MustUse }
    {
        let Attribute::MustUse = self else {
            unreachable!()
        };
    }

    /// Consumes this `Attribute::Vertex`, which holds nothing.
    pub fn unwrap_vertex(self)
        requires { IsTrue (is_vertex (attribute_view self)) }
        ensures { self ≡ attribute.Vertex }
    {
        let Attribute::Vertex = self else {
            unreachable!()
        };
    }

    /// Consumes this `Attribute::Fragment`, which holds nothing.
    pub fn unwrap_fragment(self)
        requires { IsTrue (is_fragment (attribute_view self)) }
        ensures { self ≡ attribute.Fragment }
    {
        let Attribute::Fragment = self else {
            unreachable!()
        };
    }

    /// Consumes this `Attribute::Compute`, which holds nothing.
    pub fn unwrap_compute(self)
        requires { IsTrue (is_compute (attribute_view self)) }
        ensures { self ≡ attribute.Compute }
    {
        let Attribute::Compute = self else {
            unreachable!()
        };
    }

    /// Consumes this `Attribute::Else`, which holds nothing.
    pub fn unwrap_else(self)
        requires { IsTrue (is_else (attribute_view self)) }
        ensures { self ≡ attribute.Else }
    {
        let Attribute::Else = self else {
            unreachable!()
        };
    }

    /// Returns what this `Attribute::Diagnostic` holds.
    pub fn unwrap_diagnostic(self) -> DiagnosticAttribute
        requires { IsTrue (is_diagnostic (attribute_view self)) }
        ensures { self ≡ attribute.Diagnostic result }
    {
        let Attribute::Diagnostic(inner) = self else {
            unreachable!()
        };
        inner
    }

    /// Returns what this `Attribute::Interpolate` holds.
    pub fn unwrap_interpolate(self) -> InterpolateAttribute
        requires { IsTrue (is_interpolate (attribute_view self)) }
        ensures { self ≡ attribute.Interpolate result }
    {
        let Attribute::Interpolate(inner) = self else {
            unreachable!()
        };
        inner
    }

    /// Returns what this `Attribute::WorkgroupSize` holds.
    pub fn unwrap_workgroup_size(self) -> WorkgroupSizeAttribute
        requires { IsTrue (is_workgroup_size (attribute_view self)) }
        ensures { self ≡ attribute.WorkgroupSize result }
    {
        let Attribute::WorkgroupSize(inner) = self else {
            unreachable!()
        };
        inner
    }

    /// Returns what this `Attribute::TypeConstraint` holds.
    pub fn unwrap_type_constraint(self) -> TypeConstraint
        requires { IsTrue (is_type_constraint (attribute_view self)) }
        ensures { self ≡ attribute.TypeConstraint result }
    {
        let Attribute::TypeConstraint(inner) = self else {
            unreachable!()
        };
        inner
    }

    /// Returns what this `Attribute::Custom` holds.
    pub fn unwrap_custom(self) -> CustomAttribute
        requires { IsTrue (is_custom (attribute_view self)) }
        ensures { self ≡ attribute.Custom result }
    {
        let Attribute::Custom(inner) = self else {
            unreachable!()
        };
        inner
    }
}

impl From<BuiltinValue> for Attribute {
    ghost from_gives = { λ inner made. made ≡ attribute.Builtin inner };

    fn from(inner: BuiltinValue) -> Self {
        Attribute::Builtin(inner)
    }
}

impl From<DiagnosticAttribute> for Attribute {
    ghost from_gives = { λ inner made. made ≡ attribute.Diagnostic inner };

    fn from(inner: DiagnosticAttribute) -> Self {
        Attribute::Diagnostic(inner)
    }
}

impl From<InterpolateAttribute> for Attribute {
    ghost from_gives = { λ inner made. made ≡ attribute.Interpolate inner };

    fn from(inner: InterpolateAttribute) -> Self {
        Attribute::Interpolate(inner)
    }
}

impl From<WorkgroupSizeAttribute> for Attribute {
    ghost from_gives = { λ inner made. made ≡ attribute.WorkgroupSize inner };

    fn from(inner: WorkgroupSizeAttribute) -> Self {
        Attribute::WorkgroupSize(inner)
    }
}

impl From<TypeConstraint> for Attribute {
    ghost from_gives = { λ inner made. made ≡ attribute.TypeConstraint inner };

    fn from(inner: TypeConstraint) -> Self {
        Attribute::TypeConstraint(inner)
    }
}

impl From<CustomAttribute> for Attribute {
    ghost from_gives = { λ inner made. made ≡ attribute.Custom inner };

    fn from(inner: CustomAttribute) -> Self {
        Attribute::Custom(inner)
    }
}
