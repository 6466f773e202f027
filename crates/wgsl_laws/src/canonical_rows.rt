//! The tokens that are written from worked trees.

ghost use Rattle.std.specs.Prelude.{◌≡◌, []};
ghost use Rattle.wgsl_theory_reread.specs.CanonicalExpressions.{expression_tokens};
ghost use Rattle.wgsl_theory_reread.specs.CanonicalStatements.{statement_tokens};
ghost use Rattle.wgsl_theory_reread.specs.CanonicalUnits.{canonical};
ghost use Rattle.wgsl_theory_reread.specs.CanonicalRows as row;

/// The tokens that are written from each of these trees are those that are given with it; there are
/// trees of each kind.
pub fn rows()
    ensures template_call { expression_tokens row.template_call_tree [] ≡ row.template_call_tokens }
    ensures three_minuses { expression_tokens row.three_minuses_tree [] ≡ row.three_minuses_tokens }
    ensures switch_statement { statement_tokens row.switch_tree [] ≡ row.switch_tokens }
    ensures loop_statement { statement_tokens row.loop_tree [] ≡ row.loop_tokens }
    ensures for_statement { statement_tokens row.for_tree [] ≡ row.for_tokens }
    ensures if_statement { statement_tokens row.if_tree [] ≡ row.if_tokens }
    ensures module { canonical row.unit_tree ≡ row.worked_unit_tokens }
{}
