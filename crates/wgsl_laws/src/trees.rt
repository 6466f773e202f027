//! Laws of the trees without their empty items, and without their spans.

ghost use Rattle.std.specs.Prelude.{◌≡◌};
ghost use Rattle.wgsl_model.specs.Trees.Expressions.{Expression};
ghost use Rattle.wgsl_model.specs.Trees.Statements.{Statement, CompoundStatement};
ghost use Rattle.wgsl_model.specs.Trees.Units.{GlobalDeclaration, TranslationUnit};
ghost use Rattle.wgsl_model.specs.Trees.EmptyItems.{full_statement, full_compound, full_declaration, full_unit};
ghost use Rattle.wgsl_model.specs.Trees.WithoutSpans.{bare_expression};
ghost use Rattle.wgsl_model.specs.Trees.StatementsWithoutSpans.{bare_statement, bare_compound, bare_global_declaration, bare_unit};
ghost use Rattle.wgsl_model.specs.Printed.Expressions.{print_expression};
ghost use Rattle.wgsl_model.specs.Printed.Statements.{print_statement, print_compound};
ghost use Rattle.wgsl_model.specs.Printed.Units.{print_global_declaration, print_unit};

/// Removing the empty items twice is removing them once, and it does not change the printed text.
#[tactic(auto, using(crate::proofs::Hints::without_empty_items))]
pub fn voids_twice()
    ensures statement { (s : Statement) → full_statement (full_statement s) ≡ full_statement s }
    ensures block { (b : CompoundStatement) → full_compound (full_compound b) ≡ full_compound b }
    ensures declaration { (d : GlobalDeclaration) →
        full_declaration (full_declaration d) ≡ full_declaration d }
    ensures unit { (u : TranslationUnit) → full_unit (full_unit u) ≡ full_unit u }
    ensures printed_statement { (s : Statement) →
        print_statement (full_statement s) ≡ print_statement s }
    ensures printed_block { (b : CompoundStatement) →
        print_compound (full_compound b) ≡ print_compound b }
    ensures printed_declaration { (d : GlobalDeclaration) →
        print_global_declaration (full_declaration d) ≡ print_global_declaration d }
    ensures printed_unit { (u : TranslationUnit) → print_unit (full_unit u) ≡ print_unit u }
{}

/// The printed text is the same with the spans set aside.
#[tactic(auto, using(crate::proofs::Hints::without_spans))]
pub fn spans_unprinted()
    ensures expression { (e : Expression) →
        print_expression (bare_expression e) ≡ print_expression e }
    ensures statement { (s : Statement) → print_statement (bare_statement s) ≡ print_statement s }
    ensures block { (b : CompoundStatement) → print_compound (bare_compound b) ≡ print_compound b }
    ensures declaration { (d : GlobalDeclaration) →
        print_global_declaration (bare_global_declaration d) ≡ print_global_declaration d }
    ensures unit { (u : TranslationUnit) → print_unit (bare_unit u) ≡ print_unit u }
{}
