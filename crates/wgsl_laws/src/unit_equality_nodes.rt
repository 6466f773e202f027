//! Written by tools/tables/node_laws.py from crates/wgsl_model/nodes: `==` of modules, of their
//! directives and of their declarations.

ghost use Rattle.std.specs.Cmp.{IsEquivalence};
ghost use Rattle.std.specs.Prelude.{IsTrue, ◌↔◌, ◌≡◌};
ghost use Rattle.wgsl_model.specs.Trees.StatementsWithoutSpans.{bare_attributed, bare_directive};
ghost use Rattle.wgsl_model.specs.Trees.StatementsWithoutSpans.{bare_function};
ghost use Rattle.wgsl_model.specs.Trees.StatementsWithoutSpans.{bare_global_declaration};
ghost use Rattle.wgsl_model.specs.Trees.StatementsWithoutSpans.{bare_member, bare_parameter};
ghost use Rattle.wgsl_model.specs.Trees.StatementsWithoutSpans.{bare_struct, bare_type_alias};
ghost use Rattle.wgsl_model.specs.Trees.StatementsWithoutSpans.{bare_unit};
ghost use Rattle.wgsl_tree_unit.specs.Equality.{equal_diagnostics, equal_directives};
ghost use Rattle.wgsl_tree_unit.specs.Equality.{equal_enables, equal_functions};
ghost use Rattle.wgsl_tree_unit.specs.Equality.{equal_global_declarations, equal_members};
ghost use Rattle.wgsl_tree_unit.specs.Equality.{equal_parameters, equal_requires, equal_structs};
ghost use Rattle.wgsl_tree_unit.specs.Equality.{equal_type_aliases, equal_units};
ghost use Rattle.wgsl_tree_unit.specs.View.{diagnostic_directive_view, enable_directive_view};
ghost use Rattle.wgsl_tree_unit.specs.View.{function_view, global_declaration_view};
ghost use Rattle.wgsl_tree_unit.specs.View.{global_directive_view, member_view, parameter_view};
ghost use Rattle.wgsl_tree_unit.specs.View.{requires_directive_view, struct_view};
ghost use Rattle.wgsl_tree_unit.specs.View.{type_alias_view, unit_view};
ghost use Rattle.wgsl_tree_unit.specs.declared.diagnostic.DiagnosticDirective.{DiagnosticDirective};
ghost use Rattle.wgsl_tree_unit.specs.declared.directive.GlobalDirective.{GlobalDirective};
ghost use Rattle.wgsl_tree_unit.specs.declared.extensions.EnableDirective.{EnableDirective};
ghost use Rattle.wgsl_tree_unit.specs.declared.extensions.RequiresDirective.{RequiresDirective};
ghost use Rattle.wgsl_tree_unit.specs.declared.function.FormalParameter.{FormalParameter};
ghost use Rattle.wgsl_tree_unit.specs.declared.function.Function.{Function};
ghost use Rattle.wgsl_tree_unit.specs.declared.global_declaration.GlobalDeclaration.{GlobalDeclaration};
ghost use Rattle.wgsl_tree_unit.specs.declared.structure.Struct.{Struct};
ghost use Rattle.wgsl_tree_unit.specs.declared.structure.StructMember.{StructMember};
ghost use Rattle.wgsl_tree_unit.specs.declared.type_alias.TypeAlias.{TypeAlias};
ghost use Rattle.wgsl_tree_unit.specs.declared.unit.TranslationUnit.{TranslationUnit};

/// `==` of modules is an equivalence.
#[tactic(auto, using(wgsl_tree_unit::proofs::Equalities::units_equivalence))]
pub fn equivalence()
    ensures { IsEquivalence equal_units }
{}

/// Two modules are equal exactly if they are the same ignoring spans.
#[tactic(auto, using(wgsl_tree_unit::proofs::Equalities::units_agree))]
pub fn units()
    ensures { (a b : TranslationUnit) → IsTrue (equal_units a b) ↔ (bare_unit (unit_view a)
        ≡ bare_unit (unit_view b)) }
{}

/// Two directives are equal exactly if they are the same ignoring the spans of their attributes.
#[tactic(auto, using(crate::proofs::LawNodes::unit_equality_directives))]
pub fn directives()
    ensures directive { (a b : GlobalDirective) → IsTrue (equal_directives a b) ↔
        (bare_directive (global_directive_view a) ≡ bare_directive (global_directive_view b)) }
    ensures diagnostic { (a b : DiagnosticDirective) → IsTrue (equal_diagnostics a b) ↔
        (bare_attributed (λ d. d) (diagnostic_directive_view a)
        ≡ bare_attributed (λ d. d) (diagnostic_directive_view b)) }
    ensures enable { (a b : EnableDirective) → IsTrue (equal_enables a b) ↔
        (bare_attributed (λ d. d) (enable_directive_view a)
        ≡ bare_attributed (λ d. d) (enable_directive_view b)) }
    ensures require { (a b : RequiresDirective) → IsTrue (equal_requires a b) ↔
        (bare_attributed (λ d. d) (requires_directive_view a)
        ≡ bare_attributed (λ d. d) (requires_directive_view b)) }
{}

/// Two declarations are equal exactly if they are the same ignoring spans; so are their parts.
#[tactic(auto, using(crate::proofs::LawNodes::unit_equality_global_declarations))]
pub fn global_declarations()
    ensures declaration { (a b : GlobalDeclaration) → IsTrue (equal_global_declarations a b) ↔
        (bare_global_declaration (global_declaration_view a)
        ≡ bare_global_declaration (global_declaration_view b)) }
    ensures structure { (a b : Struct) → IsTrue (equal_structs a b) ↔
        (bare_attributed bare_struct (struct_view a)
        ≡ bare_attributed bare_struct (struct_view b)) }
    ensures member { (a b : StructMember) → IsTrue (equal_members a b) ↔
        (bare_member (member_view a) ≡ bare_member (member_view b)) }
    ensures alias { (a b : TypeAlias) → IsTrue (equal_type_aliases a b) ↔
        (bare_attributed bare_type_alias (type_alias_view a)
        ≡ bare_attributed bare_type_alias (type_alias_view b)) }
    ensures function { (a b : Function) → IsTrue (equal_functions a b) ↔
        (bare_attributed bare_function (function_view a)
        ≡ bare_attributed bare_function (function_view b)) }
    ensures parameter { (a b : FormalParameter) → IsTrue (equal_parameters a b) ↔
        (bare_parameter (parameter_view a) ≡ bare_parameter (parameter_view b)) }
{}
