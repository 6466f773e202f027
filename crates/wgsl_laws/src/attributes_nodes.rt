//! Written by tools/tables/node_laws.py from crates/wgsl_model/nodes: attributes of statements, of
//! clauses and of declarations of values.

ghost use Rattle.std.specs.Prelude.{◌≡◌};
ghost use Rattle.wgsl_model.specs.Trees.Statements.{compound_attributes};
ghost use Rattle.wgsl_tree_attribute.specs.View.{attributes_view};
ghost use Rattle.wgsl_tree_node.specs.PlainAttributes.{attributes_of_clause};
ghost use Rattle.wgsl_tree_node.specs.PlainAttributes.{attributes_of_continuing};
ghost use Rattle.wgsl_tree_node.specs.PlainAttributes.{attributes_of_else};
ghost use Rattle.wgsl_tree_node.specs.PlainAttributes.{attributes_of_else_if};
ghost use Rattle.wgsl_tree_node.specs.PlainAttributes.{attributes_of_statement};
ghost use Rattle.wgsl_tree_simple.specs.View.{assert_view, assignment_view, break_if_view};
ghost use Rattle.wgsl_tree_simple.specs.View.{break_view, call_statement_view, continue_view};
ghost use Rattle.wgsl_tree_simple.specs.View.{declaration_view, decrement_view, discard_view};
ghost use Rattle.wgsl_tree_simple.specs.View.{increment_view, return_view};
ghost use Rattle.wgsl_tree_simple.specs.declared.assignment.AssignmentStatement.{AssignmentStatement};
ghost use Rattle.wgsl_tree_simple.specs.declared.break_if.BreakIfStatement.{BreakIfStatement};
ghost use Rattle.wgsl_tree_simple.specs.declared.call_statement.FunctionCallStatement.{FunctionCallStatement};
ghost use Rattle.wgsl_tree_simple.specs.declared.const_assert.ConstAssert.{ConstAssert};
ghost use Rattle.wgsl_tree_simple.specs.declared.declaration.Declaration.{Declaration};
ghost use Rattle.wgsl_tree_simple.specs.declared.increment.DecrementStatement.{DecrementStatement};
ghost use Rattle.wgsl_tree_simple.specs.declared.increment.IncrementStatement.{IncrementStatement};
ghost use Rattle.wgsl_tree_simple.specs.declared.return_statement.ReturnStatement.{ReturnStatement};
ghost use Rattle.wgsl_tree_simple.specs.declared.single_word.BreakStatement.{BreakStatement};
ghost use Rattle.wgsl_tree_simple.specs.declared.single_word.ContinueStatement.{ContinueStatement};
ghost use Rattle.wgsl_tree_simple.specs.declared.single_word.DiscardStatement.{DiscardStatement};
ghost use Rattle.wgsl_tree_statement.specs.View.{compound_statement_view};
ghost use Rattle.wgsl_tree_statement.specs.View.{continuing_statement_view, else_clause_view};
ghost use Rattle.wgsl_tree_statement.specs.View.{else_if_clause_view, for_statement_view};
ghost use Rattle.wgsl_tree_statement.specs.View.{if_statement_view, loop_statement_view};
ghost use Rattle.wgsl_tree_statement.specs.View.{statement_view, switch_clause_view};
ghost use Rattle.wgsl_tree_statement.specs.View.{switch_statement_view, while_statement_view};
ghost use Rattle.wgsl_tree_statement.specs.declared.compound.CompoundStatement.{CompoundStatement};
ghost use Rattle.wgsl_tree_statement.specs.declared.continuing.ContinuingStatement.{ContinuingStatement};
ghost use Rattle.wgsl_tree_statement.specs.declared.else_clause.ElseClause.{ElseClause};
ghost use Rattle.wgsl_tree_statement.specs.declared.else_clause.ElseIfClause.{ElseIfClause};
ghost use Rattle.wgsl_tree_statement.specs.declared.for_statement.ForStatement.{ForStatement};
ghost use Rattle.wgsl_tree_statement.specs.declared.if_statement.IfStatement.{IfStatement};
ghost use Rattle.wgsl_tree_statement.specs.declared.loop_statement.LoopStatement.{LoopStatement};
ghost use Rattle.wgsl_tree_statement.specs.declared.statement.Statement.{Statement};
ghost use Rattle.wgsl_tree_statement.specs.declared.switch.SwitchClause.{SwitchClause};
ghost use Rattle.wgsl_tree_statement.specs.declared.switch.SwitchStatement.{SwitchStatement};
ghost use Rattle.wgsl_tree_statement.specs.declared.while_statement.WhileStatement.{WhileStatement};

use wgsl_tree_node::SyntaxNode;
use wgsl_tree_simple::{
    AssignmentStatement, BreakIfStatement, BreakStatement, ConstAssert, ContinueStatement,
    Declaration, DecrementStatement, DiscardStatement, FunctionCallStatement, IncrementStatement,
    ReturnStatement,
};
use wgsl_tree_statement::{
    CompoundStatement, ContinuingStatement, ElseClause, ElseIfClause, ForStatement, IfStatement,
    LoopStatement, Statement, SwitchClause, SwitchStatement, WhileStatement,
};

/// The attributes that each statement returns are those of its plain tree.
#[tactic(auto, using(crate::proofs::Hints::attributes))]
pub fn statement_attributes()
    ensures declaration { (s : Declaration) → (declaration_view s).attributes
        ≡ attributes_view (⟦<Declaration as SyntaxNode>⟧.attributes_of s) }
    ensures assignment { (s : AssignmentStatement) → (assignment_view s).attributes
        ≡ attributes_view (⟦<AssignmentStatement as SyntaxNode>⟧.attributes_of s) }
    ensures increment { (s : IncrementStatement) → (increment_view s).attributes
        ≡ attributes_view (⟦<IncrementStatement as SyntaxNode>⟧.attributes_of s) }
    ensures decrement { (s : DecrementStatement) → (decrement_view s).attributes
        ≡ attributes_view (⟦<DecrementStatement as SyntaxNode>⟧.attributes_of s) }
    ensures break_statement { (s : BreakStatement) → attributes_of_statement (break_view s)
        ≡ attributes_view (⟦<BreakStatement as SyntaxNode>⟧.attributes_of s) }
    ensures break_if { (s : BreakIfStatement) → (break_if_view s).attributes
        ≡ attributes_view (⟦<BreakIfStatement as SyntaxNode>⟧.attributes_of s) }
    ensures continue_statement { (s : ContinueStatement) → attributes_of_statement (continue_view s)
        ≡ attributes_view (⟦<ContinueStatement as SyntaxNode>⟧.attributes_of s) }
    ensures return_statement { (s : ReturnStatement) → (return_view s).attributes
        ≡ attributes_view (⟦<ReturnStatement as SyntaxNode>⟧.attributes_of s) }
    ensures discard_statement { (s : DiscardStatement) → attributes_of_statement (discard_view s)
        ≡ attributes_view (⟦<DiscardStatement as SyntaxNode>⟧.attributes_of s) }
    ensures function_call { (s : FunctionCallStatement) → (call_statement_view s).attributes
        ≡ attributes_view (⟦<FunctionCallStatement as SyntaxNode>⟧.attributes_of s) }
    ensures const_assert { (s : ConstAssert) → (assert_view s).attributes
        ≡ attributes_view (⟦<ConstAssert as SyntaxNode>⟧.attributes_of s) }
    ensures statement { (s : Statement) → attributes_of_statement (statement_view s)
        ≡ attributes_view (⟦<Statement as SyntaxNode>⟧.attributes_of s) }
    ensures compound_statement { (s : CompoundStatement) →
        compound_attributes (compound_statement_view s)
        ≡ attributes_view (⟦<CompoundStatement as SyntaxNode>⟧.attributes_of s) }
    ensures if_statement { (s : IfStatement) → (if_statement_view s).attributes
        ≡ attributes_view (⟦<IfStatement as SyntaxNode>⟧.attributes_of s) }
    ensures else_if_clause { (s : ElseIfClause) → attributes_of_else_if (else_if_clause_view s)
        ≡ attributes_view (⟦<ElseIfClause as SyntaxNode>⟧.attributes_of s) }
    ensures else_clause { (s : ElseClause) → attributes_of_else (else_clause_view s)
        ≡ attributes_view (⟦<ElseClause as SyntaxNode>⟧.attributes_of s) }
    ensures switch_statement { (s : SwitchStatement) → (switch_statement_view s).attributes
        ≡ attributes_view (⟦<SwitchStatement as SyntaxNode>⟧.attributes_of s) }
    ensures switch_clause { (s : SwitchClause) → attributes_of_clause (switch_clause_view s)
        ≡ attributes_view (⟦<SwitchClause as SyntaxNode>⟧.attributes_of s) }
    ensures loop_statement { (s : LoopStatement) → (loop_statement_view s).attributes
        ≡ attributes_view (⟦<LoopStatement as SyntaxNode>⟧.attributes_of s) }
    ensures for_statement { (s : ForStatement) → (for_statement_view s).attributes
        ≡ attributes_view (⟦<ForStatement as SyntaxNode>⟧.attributes_of s) }
    ensures while_statement { (s : WhileStatement) → (while_statement_view s).attributes
        ≡ attributes_view (⟦<WhileStatement as SyntaxNode>⟧.attributes_of s) }
    ensures continuing_statement { (s : ContinuingStatement) →
        attributes_of_continuing (continuing_statement_view s)
        ≡ attributes_view (⟦<ContinuingStatement as SyntaxNode>⟧.attributes_of s) }
{}
