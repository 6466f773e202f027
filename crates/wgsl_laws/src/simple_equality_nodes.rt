//! Written by tools/tables/node_laws.py from crates/wgsl_model/nodes: `==` of declarations of
//! values and of statements that hold no others.

ghost use Rattle.std.specs.Prelude.{IsTrue, ◌↔◌, ◌≡◌};
ghost use Rattle.wgsl_model.specs.Trees.StatementsWithoutSpans.{bare_assert, bare_assignment};
ghost use Rattle.wgsl_model.specs.Trees.StatementsWithoutSpans.{bare_attributed, bare_break_if};
ghost use Rattle.wgsl_model.specs.Trees.StatementsWithoutSpans.{bare_call_statement};
ghost use Rattle.wgsl_model.specs.Trees.StatementsWithoutSpans.{bare_declaration};
ghost use Rattle.wgsl_model.specs.Trees.StatementsWithoutSpans.{bare_decrement, bare_increment};
ghost use Rattle.wgsl_model.specs.Trees.StatementsWithoutSpans.{bare_return, bare_selector};
ghost use Rattle.wgsl_model.specs.Trees.StatementsWithoutSpans.{bare_statement};
ghost use Rattle.wgsl_tree_simple.specs.Equality.{equal_asserts, equal_assignments};
ghost use Rattle.wgsl_tree_simple.specs.Equality.{equal_break_ifs, equal_breaks};
ghost use Rattle.wgsl_tree_simple.specs.Equality.{equal_call_statements, equal_continues};
ghost use Rattle.wgsl_tree_simple.specs.Equality.{equal_declarations, equal_decrements};
ghost use Rattle.wgsl_tree_simple.specs.Equality.{equal_discards, equal_increments, equal_kinds};
ghost use Rattle.wgsl_tree_simple.specs.Equality.{equal_returns, equal_selectors};
ghost use Rattle.wgsl_tree_simple.specs.View.{assert_view, assignment_view, break_if_view};
ghost use Rattle.wgsl_tree_simple.specs.View.{break_view, call_statement_view, continue_view};
ghost use Rattle.wgsl_tree_simple.specs.View.{declaration_kind_view, declaration_view};
ghost use Rattle.wgsl_tree_simple.specs.View.{decrement_view, discard_view, increment_view};
ghost use Rattle.wgsl_tree_simple.specs.View.{return_view, selector_view};
ghost use Rattle.wgsl_tree_simple.specs.declared.assignment.AssignmentStatement.{AssignmentStatement};
ghost use Rattle.wgsl_tree_simple.specs.declared.break_if.BreakIfStatement.{BreakIfStatement};
ghost use Rattle.wgsl_tree_simple.specs.declared.call_statement.FunctionCallStatement.{FunctionCallStatement};
ghost use Rattle.wgsl_tree_simple.specs.declared.case_selector.CaseSelector.{CaseSelector};
ghost use Rattle.wgsl_tree_simple.specs.declared.const_assert.ConstAssert.{ConstAssert};
ghost use Rattle.wgsl_tree_simple.specs.declared.declaration.Declaration.{Declaration};
ghost use Rattle.wgsl_tree_simple.specs.declared.declaration.DeclarationKind.{DeclarationKind};
ghost use Rattle.wgsl_tree_simple.specs.declared.increment.DecrementStatement.{DecrementStatement};
ghost use Rattle.wgsl_tree_simple.specs.declared.increment.IncrementStatement.{IncrementStatement};
ghost use Rattle.wgsl_tree_simple.specs.declared.return_statement.ReturnStatement.{ReturnStatement};
ghost use Rattle.wgsl_tree_simple.specs.declared.single_word.BreakStatement.{BreakStatement};
ghost use Rattle.wgsl_tree_simple.specs.declared.single_word.ContinueStatement.{ContinueStatement};
ghost use Rattle.wgsl_tree_simple.specs.declared.single_word.DiscardStatement.{DiscardStatement};

/// Two declarations are equal exactly if they are the same ignoring spans; two kinds exactly if
/// they are the same.
#[tactic(auto, using(crate::proofs::LawNodes::simple_equality_declarations))]
pub fn declarations()
    ensures kind { (a b : DeclarationKind) → IsTrue (equal_kinds a b) ↔ (declaration_kind_view a
        ≡ declaration_kind_view b) }
    ensures declaration { (a b : Declaration) → IsTrue (equal_declarations a b) ↔
        (bare_attributed bare_declaration (declaration_view a)
        ≡ bare_attributed bare_declaration (declaration_view b)) }
{}

/// Two statements are equal exactly if they are the same ignoring spans.
#[tactic(auto, using(wgsl_tree_simple::proofs::Equalities::statements_agree))]
pub fn simple_statements()
    ensures assignment { (a b : AssignmentStatement) → IsTrue (equal_assignments a b) ↔
        (bare_attributed bare_assignment (assignment_view a)
        ≡ bare_attributed bare_assignment (assignment_view b)) }
    ensures increment { (a b : IncrementStatement) → IsTrue (equal_increments a b) ↔
        (bare_attributed bare_increment (increment_view a)
        ≡ bare_attributed bare_increment (increment_view b)) }
    ensures decrement { (a b : DecrementStatement) → IsTrue (equal_decrements a b) ↔
        (bare_attributed bare_decrement (decrement_view a)
        ≡ bare_attributed bare_decrement (decrement_view b)) }
    ensures selector { (a b : CaseSelector) → IsTrue (equal_selectors a b) ↔
        (bare_selector (selector_view a) ≡ bare_selector (selector_view b)) }
    ensures breaking { (a b : BreakStatement) → IsTrue (equal_breaks a b) ↔
        (bare_statement (break_view a) ≡ bare_statement (break_view b)) }
    ensures break_if { (a b : BreakIfStatement) → IsTrue (equal_break_ifs a b) ↔
        (bare_attributed bare_break_if (break_if_view a)
        ≡ bare_attributed bare_break_if (break_if_view b)) }
    ensures continuing { (a b : ContinueStatement) → IsTrue (equal_continues a b) ↔
        (bare_statement (continue_view a) ≡ bare_statement (continue_view b)) }
    ensures returning { (a b : ReturnStatement) → IsTrue (equal_returns a b) ↔
        (bare_attributed bare_return (return_view a)
        ≡ bare_attributed bare_return (return_view b)) }
    ensures discarding { (a b : DiscardStatement) → IsTrue (equal_discards a b) ↔
        (bare_statement (discard_view a) ≡ bare_statement (discard_view b)) }
    ensures calling { (a b : FunctionCallStatement) → IsTrue (equal_call_statements a b) ↔
        (bare_attributed bare_call_statement (call_statement_view a)
        ≡ bare_attributed bare_call_statement (call_statement_view b)) }
    ensures assert { (a b : ConstAssert) → IsTrue (equal_asserts a b) ↔
        (bare_attributed bare_assert (assert_view a)
        ≡ bare_attributed bare_assert (assert_view b)) }
{}
