//! Written by tools/tables/node_laws.py from crates/wgsl_model/nodes: `==` of attributes and of the
//! structs that they hold.

ghost use Rattle.std.specs.Cmp.{IsEquivalence};
ghost use Rattle.std.specs.Prelude.{IsTrue, ◌↔◌, ◌≡◌};
ghost use Rattle.wgsl_model.specs.Trees.WithoutSpans.{bare_attribute, bare_custom};
ghost use Rattle.wgsl_model.specs.Trees.WithoutSpans.{bare_type_constraint, bare_workgroup_size};
ghost use Rattle.wgsl_tree_attribute.specs.Equality.{equal_attributes, equal_customs};
ghost use Rattle.wgsl_tree_attribute.specs.Equality.{equal_diagnostics, equal_interpolations};
ghost use Rattle.wgsl_tree_attribute.specs.Equality.{equal_type_constraints};
ghost use Rattle.wgsl_tree_attribute.specs.Equality.{equal_workgroup_sizes};
ghost use Rattle.wgsl_tree_attribute.specs.ViewNodes.{attribute_view, custom_view};
ghost use Rattle.wgsl_tree_attribute.specs.ViewNodes.{diagnostic_view, interpolate_view};
ghost use Rattle.wgsl_tree_attribute.specs.ViewNodes.{type_constraint_view, workgroup_size_view};
ghost use Rattle.wgsl_tree_attribute.specs.declared.attribute.Attribute.{Attribute};
ghost use Rattle.wgsl_tree_attribute.specs.declared.custom.CustomAttribute.{CustomAttribute};
ghost use Rattle.wgsl_tree_attribute.specs.declared.diagnostic.DiagnosticAttribute.{DiagnosticAttribute};
ghost use Rattle.wgsl_tree_attribute.specs.declared.interpolate.InterpolateAttribute.{InterpolateAttribute};
ghost use Rattle.wgsl_tree_attribute.specs.declared.type_constraint.TypeConstraint.{TypeConstraint};
ghost use Rattle.wgsl_tree_attribute.specs.declared.workgroup_size.WorkgroupSizeAttribute.{WorkgroupSizeAttribute};

/// `==` of attributes is an equivalence.
#[tactic(auto, using(wgsl_tree_attribute::proofs::Equalities::attributes_equivalence))]
pub fn equivalence()
    ensures { IsEquivalence equal_attributes }
{}

/// Two attributes are equal exactly if they are the same ignoring spans.
#[tactic(auto, using(wgsl_tree_attribute::proofs::Equalities::attributes_agree))]
pub fn attributes()
    ensures { (a b : Attribute) → IsTrue (equal_attributes a b) ↔ (bare_attribute (attribute_view a)
        ≡ bare_attribute (attribute_view b)) }
{}

/// Two values of `DiagnosticAttribute` are equal exactly if they are the same ignoring spans.
#[tactic(auto, using(wgsl_tree_attribute::proofs::Equalities::diagnostics_agree))]
pub fn diagnostics()
    ensures { (a b : DiagnosticAttribute) → IsTrue (equal_diagnostics a b) ↔ (diagnostic_view a
        ≡ diagnostic_view b) }
{}

/// Two values of `InterpolateAttribute` are equal exactly if they are the same ignoring spans.
#[tactic(auto, using(wgsl_tree_attribute::proofs::Equalities::interpolations_agree))]
pub fn interpolations()
    ensures { (a b : InterpolateAttribute) → IsTrue (equal_interpolations a b) ↔ (interpolate_view a
        ≡ interpolate_view b) }
{}

/// Two values of `WorkgroupSizeAttribute` are equal exactly if they are the same ignoring spans.
#[tactic(auto, using(wgsl_tree_attribute::proofs::Equalities::workgroup_sizes_agree))]
pub fn workgroup_sizes()
    ensures { (a b : WorkgroupSizeAttribute) → IsTrue (equal_workgroup_sizes a b) ↔
        (bare_workgroup_size (workgroup_size_view a)
        ≡ bare_workgroup_size (workgroup_size_view b)) }
{}

/// Two values of `TypeConstraint` are equal exactly if they are the same ignoring spans.
#[tactic(auto, using(wgsl_tree_attribute::proofs::Equalities::type_constraints_agree))]
pub fn type_constraints()
    ensures { (a b : TypeConstraint) → IsTrue (equal_type_constraints a b) ↔
        (bare_type_constraint (type_constraint_view a)
        ≡ bare_type_constraint (type_constraint_view b)) }
{}

/// Two values of `CustomAttribute` are equal exactly if they are the same ignoring spans.
#[tactic(auto, using(wgsl_tree_attribute::proofs::Equalities::customs_agree))]
pub fn customs()
    ensures { (a b : CustomAttribute) → IsTrue (equal_customs a b) ↔ (bare_custom (custom_view a)
        ≡ bare_custom (custom_view b)) }
{}
