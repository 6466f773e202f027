//! Written by tools/tables/node_laws.py from crates/wgsl_model/nodes: where two plain trees are
//! equal.

ghost use Rattle.std.specs.Cmp.{IsEquivalence};
ghost use Rattle.std.specs.Prelude.{IsTrue, ◌↔◌, ◌≡◌};
ghost use Rattle.wgsl_model.specs.Trees.Attributed.{Attributed};
ghost use Rattle.wgsl_model.specs.Trees.Expressions.{Expression, ExpressionNode, FunctionCall};
ghost use Rattle.wgsl_model.specs.Trees.Expressions.{LiteralExpression, TypeExpression};
ghost use Rattle.wgsl_model.specs.Trees.Statements.{AssignmentStatement, BreakIfStatement};
ghost use Rattle.wgsl_model.specs.Trees.Statements.{CaseSelector, CompoundStatement};
ghost use Rattle.wgsl_model.specs.Trees.Statements.{ConstAssert, ContinuingStatement};
ghost use Rattle.wgsl_model.specs.Trees.Statements.{Declaration, DeclarationKind};
ghost use Rattle.wgsl_model.specs.Trees.Statements.{DecrementStatement, ElseClause};
ghost use Rattle.wgsl_model.specs.Trees.Statements.{ElseIfClause, ForStatement};
ghost use Rattle.wgsl_model.specs.Trees.Statements.{FunctionCallStatement, IfClause};
ghost use Rattle.wgsl_model.specs.Trees.Statements.{IfStatement, IncrementStatement};
ghost use Rattle.wgsl_model.specs.Trees.Statements.{LoopStatement, ReturnStatement, Statement};
ghost use Rattle.wgsl_model.specs.Trees.Statements.{StatementNode, SwitchClause};
ghost use Rattle.wgsl_model.specs.Trees.Statements.{SwitchStatement, WhileStatement};
ghost use Rattle.wgsl_model.specs.Trees.Statements.{changed_for, changed_if, changed_loop};
ghost use Rattle.wgsl_model.specs.Trees.Statements.{changed_switch, changed_while};
ghost use Rattle.wgsl_model.specs.Trees.StatementsWithoutSpans.{bare_assert, bare_assignment};
ghost use Rattle.wgsl_model.specs.Trees.StatementsWithoutSpans.{bare_attributed, bare_break_if};
ghost use Rattle.wgsl_model.specs.Trees.StatementsWithoutSpans.{bare_call_statement};
ghost use Rattle.wgsl_model.specs.Trees.StatementsWithoutSpans.{bare_compound, bare_continuing};
ghost use Rattle.wgsl_model.specs.Trees.StatementsWithoutSpans.{bare_declaration};
ghost use Rattle.wgsl_model.specs.Trees.StatementsWithoutSpans.{bare_decrement, bare_directive};
ghost use Rattle.wgsl_model.specs.Trees.StatementsWithoutSpans.{bare_else_clause};
ghost use Rattle.wgsl_model.specs.Trees.StatementsWithoutSpans.{bare_else_if_clause};
ghost use Rattle.wgsl_model.specs.Trees.StatementsWithoutSpans.{bare_function};
ghost use Rattle.wgsl_model.specs.Trees.StatementsWithoutSpans.{bare_global_declaration};
ghost use Rattle.wgsl_model.specs.Trees.StatementsWithoutSpans.{bare_if_clause, bare_increment};
ghost use Rattle.wgsl_model.specs.Trees.StatementsWithoutSpans.{bare_member, bare_parameter};
ghost use Rattle.wgsl_model.specs.Trees.StatementsWithoutSpans.{bare_return, bare_selector};
ghost use Rattle.wgsl_model.specs.Trees.StatementsWithoutSpans.{bare_statement};
ghost use Rattle.wgsl_model.specs.Trees.StatementsWithoutSpans.{bare_statement_node};
ghost use Rattle.wgsl_model.specs.Trees.StatementsWithoutSpans.{bare_struct, bare_switch_clause};
ghost use Rattle.wgsl_model.specs.Trees.StatementsWithoutSpans.{bare_type_alias, bare_unit};
ghost use Rattle.wgsl_model.specs.Trees.StatementsWithoutSpans.{without_spans};
ghost use Rattle.wgsl_model.specs.Trees.Units.{DiagnosticDirective, EnableDirective};
ghost use Rattle.wgsl_model.specs.Trees.Units.{FormalParameter, Function, GlobalDeclaration};
ghost use Rattle.wgsl_model.specs.Trees.Units.{GlobalDirective, RequiresDirective, Struct};
ghost use Rattle.wgsl_model.specs.Trees.Units.{StructMember, TranslationUnit, TypeAlias};
ghost use Rattle.wgsl_model.specs.Trees.WithoutSpans.{bare_call, bare_expression};
ghost use Rattle.wgsl_model.specs.Trees.WithoutSpans.{bare_expression_node, bare_type};
ghost use Rattle.wgsl_tree_code.specs.Code.{attributed_code};
ghost use Rattle.wgsl_tree_code.specs.ExpressionNodes.{call_code, expression_code};
ghost use Rattle.wgsl_tree_code.specs.ExpressionNodes.{expression_node_code, literal_code};
ghost use Rattle.wgsl_tree_code.specs.ExpressionNodes.{type_code};
ghost use Rattle.wgsl_tree_code.specs.Same.{same};
ghost use Rattle.wgsl_tree_code.specs.StatementNodes.{assert_code, assignment_code};
ghost use Rattle.wgsl_tree_code.specs.StatementNodes.{break_if_code, call_statement_code};
ghost use Rattle.wgsl_tree_code.specs.StatementNodes.{compound_code, continuing_code};
ghost use Rattle.wgsl_tree_code.specs.StatementNodes.{declaration_code, declaration_kind_code};
ghost use Rattle.wgsl_tree_code.specs.StatementNodes.{decrement_code, else_clause_code};
ghost use Rattle.wgsl_tree_code.specs.StatementNodes.{else_if_clause_code, for_code};
ghost use Rattle.wgsl_tree_code.specs.StatementNodes.{if_clause_code, if_code, increment_code};
ghost use Rattle.wgsl_tree_code.specs.StatementNodes.{loop_code, return_code, selector_code};
ghost use Rattle.wgsl_tree_code.specs.StatementNodes.{statement_code, statement_node_code};
ghost use Rattle.wgsl_tree_code.specs.StatementNodes.{switch_clause_code, switch_code};
ghost use Rattle.wgsl_tree_code.specs.StatementNodes.{while_code};
ghost use Rattle.wgsl_tree_code.specs.UnitNodes.{diagnostic_directive_code};
ghost use Rattle.wgsl_tree_code.specs.UnitNodes.{enable_directive_code, function_code};
ghost use Rattle.wgsl_tree_code.specs.UnitNodes.{global_declaration_code, global_directive_code};
ghost use Rattle.wgsl_tree_code.specs.UnitNodes.{member_code, parameter_code};
ghost use Rattle.wgsl_tree_code.specs.UnitNodes.{requires_directive_code, struct_code};
ghost use Rattle.wgsl_tree_code.specs.UnitNodes.{type_alias_code, unit_code};

/// The test is an equivalence.
#[tactic(auto, using(wgsl_tree_code::specs::Laws::same_equivalence))]
pub fn equivalence()
    ensures { IsEquivalence same }
{}

/// Two literals are equal exactly if they are the same.
#[tactic(auto, using(wgsl_tree_code::proofs::SpanlessExpressionNodes::literal_expression_equal))]
pub fn literals()
    ensures { (a b : LiteralExpression) → IsTrue (same (literal_code a) (literal_code b)) ↔ (a
        ≡ b) }
{}

/// Two expressions are equal exactly if they are the same ignoring spans.
#[tactic(auto, using(wgsl_tree_code::proofs::SpanlessExpressionNodes::expression_equal))]
pub fn expressions()
    ensures { (a b : Expression) → IsTrue (same (expression_code a) (expression_code b)) ↔
        (bare_expression a ≡ bare_expression b) }
{}

/// Two expressions with their places are equal exactly if they are the same ignoring spans.
#[tactic(auto, using(wgsl_tree_code::proofs::SpanlessExpressionNodes::expression_node_equal))]
pub fn nodes()
    ensures { (a b : ExpressionNode) →
        IsTrue (same (expression_node_code a) (expression_node_code b)) ↔ (bare_expression_node a
        ≡ bare_expression_node b) }
{}

/// Two calls are equal exactly if they are the same ignoring spans.
#[tactic(auto, using(wgsl_tree_code::proofs::SpanlessExpressionNodes::function_call_equal))]
pub fn calls()
    ensures { (a b : FunctionCall) → IsTrue (same (call_code a) (call_code b)) ↔ (bare_call a
        ≡ bare_call b) }
{}

/// Two types are equal exactly if they are the same ignoring spans.
#[tactic(auto, using(wgsl_tree_code::proofs::SpanlessExpressionNodes::type_expression_equal))]
pub fn types()
    ensures { (a b : TypeExpression) → IsTrue (same (type_code a) (type_code b)) ↔ (bare_type a
        ≡ bare_type b) }
{}

/// Two declarations are equal exactly if they are the same ignoring spans; two of their kinds,
/// which have no spans, exactly if they are the same.
#[tactic(auto, using(crate::proofs::LawNodes::equality_declarations))]
pub fn declarations()
    ensures kind { (a b : DeclarationKind) →
        IsTrue (same (declaration_kind_code a) (declaration_kind_code b)) ↔ (a ≡ b) }
    ensures declaration { (a b : Attributed Declaration) →
        IsTrue (same (attributed_code declaration_code a) (attributed_code declaration_code b)) ↔
        (bare_attributed bare_declaration a ≡ bare_attributed bare_declaration b) }
{}

/// Two statements that hold no others are equal exactly if they are the same ignoring spans.
#[tactic(auto, using(crate::proofs::LawNodes::equality_simple_statements))]
pub fn simple_statements()
    ensures assignment { (a b : Attributed AssignmentStatement) →
        IsTrue (same (attributed_code assignment_code a) (attributed_code assignment_code b)) ↔
        (bare_attributed bare_assignment a ≡ bare_attributed bare_assignment b) }
    ensures increment { (a b : Attributed IncrementStatement) →
        IsTrue (same (attributed_code increment_code a) (attributed_code increment_code b)) ↔
        (bare_attributed bare_increment a ≡ bare_attributed bare_increment b) }
    ensures decrement { (a b : Attributed DecrementStatement) →
        IsTrue (same (attributed_code decrement_code a) (attributed_code decrement_code b)) ↔
        (bare_attributed bare_decrement a ≡ bare_attributed bare_decrement b) }
    ensures selector { (a b : CaseSelector) → IsTrue (same (selector_code a) (selector_code b)) ↔
        (bare_selector a ≡ bare_selector b) }
    ensures break_if { (a b : Attributed BreakIfStatement) →
        IsTrue (same (attributed_code break_if_code a) (attributed_code break_if_code b)) ↔
        (bare_attributed bare_break_if a ≡ bare_attributed bare_break_if b) }
    ensures returning { (a b : Attributed ReturnStatement) →
        IsTrue (same (attributed_code return_code a) (attributed_code return_code b)) ↔
        (bare_attributed bare_return a ≡ bare_attributed bare_return b) }
    ensures calling { (a b : Attributed FunctionCallStatement) →
        IsTrue (same (attributed_code call_statement_code a) (attributed_code call_statement_code b)) ↔
        (bare_attributed bare_call_statement a ≡ bare_attributed bare_call_statement b) }
    ensures assert { (a b : Attributed ConstAssert) →
        IsTrue (same (attributed_code assert_code a) (attributed_code assert_code b)) ↔
        (bare_attributed bare_assert a ≡ bare_attributed bare_assert b) }
{}

/// Two statements are equal exactly if they are the same ignoring spans; so are two blocks.
#[tactic(auto, using(crate::proofs::LawNodes::equality_statements))]
pub fn statements()
    ensures statement { (a b : Statement) → IsTrue (same (statement_code a) (statement_code b)) ↔
        (bare_statement a ≡ bare_statement b) }
    ensures node { (a b : StatementNode) →
        IsTrue (same (statement_node_code a) (statement_node_code b)) ↔ (bare_statement_node a
        ≡ bare_statement_node b) }
    ensures block { (a b : CompoundStatement) → IsTrue (same (compound_code a) (compound_code b)) ↔
        (bare_compound a ≡ bare_compound b) }
{}

/// Two statements that branch are equal exactly if they are the same ignoring spans; so are two of
/// their clauses.
#[tactic(auto, using(crate::proofs::LawNodes::equality_branches))]
pub fn branches()
    ensures if_statement { (a b : Attributed IfStatement) →
        IsTrue (same (attributed_code if_code a) (attributed_code if_code b)) ↔
        (bare_attributed (changed_if without_spans) a
        ≡ bare_attributed (changed_if without_spans) b) }
    ensures if_clause { (a b : IfClause) → IsTrue (same (if_clause_code a) (if_clause_code b)) ↔
        (bare_if_clause a ≡ bare_if_clause b) }
    ensures else_if_clause { (a b : ElseIfClause) →
        IsTrue (same (else_if_clause_code a) (else_if_clause_code b)) ↔ (bare_else_if_clause a
        ≡ bare_else_if_clause b) }
    ensures else_clause { (a b : ElseClause) →
        IsTrue (same (else_clause_code a) (else_clause_code b)) ↔ (bare_else_clause a
        ≡ bare_else_clause b) }
    ensures switch_statement { (a b : Attributed SwitchStatement) →
        IsTrue (same (attributed_code switch_code a) (attributed_code switch_code b)) ↔
        (bare_attributed (changed_switch without_spans) a
        ≡ bare_attributed (changed_switch without_spans) b) }
    ensures switch_clause { (a b : SwitchClause) →
        IsTrue (same (switch_clause_code a) (switch_clause_code b)) ↔ (bare_switch_clause a
        ≡ bare_switch_clause b) }
{}

/// Two loops are equal exactly if they are the same ignoring spans.
#[tactic(auto, using(crate::proofs::LawNodes::equality_loops))]
pub fn loops()
    ensures continuing { (a b : ContinuingStatement) →
        IsTrue (same (continuing_code a) (continuing_code b)) ↔ (bare_continuing a
        ≡ bare_continuing b) }
    ensures for_statement { (a b : Attributed ForStatement) →
        IsTrue (same (attributed_code for_code a) (attributed_code for_code b)) ↔
        (bare_attributed (changed_for without_spans) a
        ≡ bare_attributed (changed_for without_spans) b) }
    ensures loop_statement { (a b : Attributed LoopStatement) →
        IsTrue (same (attributed_code loop_code a) (attributed_code loop_code b)) ↔
        (bare_attributed (changed_loop without_spans) a
        ≡ bare_attributed (changed_loop without_spans) b) }
    ensures while_statement { (a b : Attributed WhileStatement) →
        IsTrue (same (attributed_code while_code a) (attributed_code while_code b)) ↔
        (bare_attributed (changed_while without_spans) a
        ≡ bare_attributed (changed_while without_spans) b) }
{}

/// Two directives are equal exactly if they are the same ignoring the spans in their attributes.
#[tactic(auto, using(crate::proofs::LawNodes::equality_directives))]
pub fn directives()
    ensures directive { (a b : GlobalDirective) →
        IsTrue (same (global_directive_code a) (global_directive_code b)) ↔ (bare_directive a
        ≡ bare_directive b) }
    ensures diagnostic { (a b : Attributed DiagnosticDirective) →
        IsTrue (same (attributed_code diagnostic_directive_code a) (attributed_code diagnostic_directive_code b)) ↔
        (bare_attributed (λ d. d) a ≡ bare_attributed (λ d. d) b) }
    ensures enable { (a b : Attributed EnableDirective) →
        IsTrue (same (attributed_code enable_directive_code a) (attributed_code enable_directive_code b)) ↔
        (bare_attributed (λ d. d) a ≡ bare_attributed (λ d. d) b) }
    ensures require { (a b : Attributed RequiresDirective) →
        IsTrue (same (attributed_code requires_directive_code a) (attributed_code requires_directive_code b)) ↔
        (bare_attributed (λ d. d) a ≡ bare_attributed (λ d. d) b) }
{}

/// Two declarations of modules are equal exactly if they are the same ignoring spans.
#[tactic(auto, using(crate::proofs::LawNodes::equality_global_declarations))]
pub fn global_declarations()
    ensures declaration { (a b : GlobalDeclaration) →
        IsTrue (same (global_declaration_code a) (global_declaration_code b)) ↔
        (bare_global_declaration a ≡ bare_global_declaration b) }
    ensures structure { (a b : Attributed Struct) →
        IsTrue (same (attributed_code struct_code a) (attributed_code struct_code b)) ↔
        (bare_attributed bare_struct a ≡ bare_attributed bare_struct b) }
    ensures member { (a b : StructMember) → IsTrue (same (member_code a) (member_code b)) ↔
        (bare_member a ≡ bare_member b) }
    ensures alias { (a b : Attributed TypeAlias) →
        IsTrue (same (attributed_code type_alias_code a) (attributed_code type_alias_code b)) ↔
        (bare_attributed bare_type_alias a ≡ bare_attributed bare_type_alias b) }
    ensures function { (a b : Attributed Function) →
        IsTrue (same (attributed_code function_code a) (attributed_code function_code b)) ↔
        (bare_attributed bare_function a ≡ bare_attributed bare_function b) }
    ensures parameter { (a b : FormalParameter) →
        IsTrue (same (parameter_code a) (parameter_code b)) ↔ (bare_parameter a
        ≡ bare_parameter b) }
{}

/// Two modules are equal exactly if they are the same ignoring spans.
#[tactic(auto, using(wgsl_tree_code::proofs::SpanlessUnitNodes::translation_unit_equal))]
pub fn units()
    ensures { (a b : TranslationUnit) → IsTrue (same (unit_code a) (unit_code b)) ↔ (bare_unit a
        ≡ bare_unit b) }
{}
