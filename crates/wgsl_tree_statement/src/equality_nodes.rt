//! Written by tools/tables/tree_equalities.py from crates/wgsl_model/nodes: `==` of nodes.

ghost use Rattle.std.specs.Cmp.{on_per};
ghost use Rattle.std.specs.Option.{option_map};
ghost use Rattle.std.specs.Prelude.{◌≡◌, map};
ghost use Rattle.wgsl_model.specs.Trees.Statements.{clauses_of, continuing_of, else_ifs_of};
ghost use Rattle.wgsl_model.specs.Trees.Statements.{else_of, maybe_statement};
ghost use Rattle.wgsl_tree_code.specs.Code.{attributed_code, list};
ghost use Rattle.wgsl_tree_code.specs.Laws.{same_partial};
ghost use Rattle.wgsl_tree_code.specs.Same.{same};
ghost use Rattle.wgsl_tree_code.specs.StatementNodes.{clauses_code, compound_code, continuing_code};
ghost use Rattle.wgsl_tree_code.specs.StatementNodes.{else_clause_code, else_code};
ghost use Rattle.wgsl_tree_code.specs.StatementNodes.{else_if_clause_code, else_ifs_code, for_code};
ghost use Rattle.wgsl_tree_code.specs.StatementNodes.{if_clause_code, if_code, loop_code};
ghost use Rattle.wgsl_tree_code.specs.StatementNodes.{maybe_continuing_code, part_code};
ghost use Rattle.wgsl_tree_code.specs.StatementNodes.{statement_code, statements_code};
ghost use Rattle.wgsl_tree_code.specs.StatementNodes.{switch_clause_code, switch_code, while_code};
ghost use Rattle.wgsl_tree_statement.specs.View.{compound_statement_view};
ghost use Rattle.wgsl_tree_statement.specs.View.{continuing_statement_view, else_clause_view};
ghost use Rattle.wgsl_tree_statement.specs.View.{else_if_clause_view, for_statement_view};
ghost use Rattle.wgsl_tree_statement.specs.View.{if_clause_view, if_statement_view};
ghost use Rattle.wgsl_tree_statement.specs.View.{loop_statement_view, statement_node_view};
ghost use Rattle.wgsl_tree_statement.specs.View.{statement_nodes_view, statement_view};
ghost use Rattle.wgsl_tree_statement.specs.View.{switch_clause_view, switch_statement_view};
ghost use Rattle.wgsl_tree_statement.specs.View.{while_statement_view};

use crate::compound::CompoundStatement;
use crate::continuing::ContinuingStatement;
use crate::else_clause::{ElseClause, ElseIfClause};
use crate::for_statement::ForStatement;
use crate::if_statement::{IfClause, IfStatement};
use crate::loop_statement::LoopStatement;
use crate::statement::{Statement, StatementNode};
use crate::switch::{SwitchClause, SwitchStatement};
use crate::while_statement::WhileStatement;

impl PartialEq for Statement {
    ghost eq = { λ a b. same (statement_code (statement_view a)) (statement_code (statement_view b)) };

    ghost laws = { on_per (λ e. statement_code (statement_view e)) same_partial };

    #[tactic(auto, using(crate::proofs::Views::variants))]
    #[cycle(equal)]
    fn eq(&self, other: &Statement) -> bool {
        match self {
            Statement::Void => matches!(other, Statement::Void),
            Statement::Compound(a) => matches!(other, Statement::Compound(b) if *a == *b),
            Statement::Assignment(a) => matches!(other, Statement::Assignment(b) if *a == *b),
            Statement::Increment(a) => matches!(other, Statement::Increment(b) if *a == *b),
            Statement::Decrement(a) => matches!(other, Statement::Decrement(b) if *a == *b),
            Statement::If(a) => matches!(other, Statement::If(b) if *a == *b),
            Statement::Switch(a) => matches!(other, Statement::Switch(b) if *a == *b),
            Statement::Loop(a) => matches!(other, Statement::Loop(b) if *a == *b),
            Statement::For(a) => matches!(other, Statement::For(b) if *a == *b),
            Statement::While(a) => matches!(other, Statement::While(b) if *a == *b),
            Statement::Break(a) => matches!(other, Statement::Break(b) if *a == *b),
            Statement::Continue(a) => matches!(other, Statement::Continue(b) if *a == *b),
            Statement::Return(a) => matches!(other, Statement::Return(b) if *a == *b),
            Statement::Discard(a) => matches!(other, Statement::Discard(b) if *a == *b),
            Statement::FunctionCall(a) => matches!(other, Statement::FunctionCall(b) if *a == *b),
            Statement::ConstAssert(a) => matches!(other, Statement::ConstAssert(b) if *a == *b),
            Statement::Declaration(a) => matches!(other, Statement::Declaration(b) if *a == *b),
        }
    }
}

impl PartialEq for CompoundStatement {
    ghost eq = { λ a b. same (compound_code (compound_statement_view a)) (compound_code (compound_statement_view b)) };

    ghost laws = { on_per (λ e. compound_code (compound_statement_view e)) same_partial };

    #[cycle(equal)]
    fn eq(&self, other: &CompoundStatement) -> bool {
        self.attributes == other.attributes && statements_equal(&self.statements, &other.statements)
    }
}

impl PartialEq for IfStatement {
    ghost eq = { λ a b. same (attributed_code if_code (if_statement_view a)) (attributed_code if_code (if_statement_view b)) };

    ghost laws = { on_per (λ e. attributed_code if_code (if_statement_view e)) same_partial };

    #[cycle(equal)]
    fn eq(&self, other: &IfStatement) -> bool {
        self.attributes == other.attributes
            && self.if_clause == other.if_clause
            && else_ifs_equal(&self.else_if_clauses, &other.else_if_clauses)
            && else_equal(&self.else_clause, &other.else_clause)
    }
}

impl PartialEq for IfClause {
    ghost eq = { λ a b. same (if_clause_code (if_clause_view a)) (if_clause_code (if_clause_view b)) };

    ghost laws = { on_per (λ e. if_clause_code (if_clause_view e)) same_partial };

    #[cycle(equal)]
    fn eq(&self, other: &IfClause) -> bool {
        self.expression == other.expression && self.body == other.body
    }
}

impl PartialEq for ElseIfClause {
    ghost eq = { λ a b. same (else_if_clause_code (else_if_clause_view a)) (else_if_clause_code (else_if_clause_view b)) };

    ghost laws = { on_per (λ e. else_if_clause_code (else_if_clause_view e)) same_partial };

    #[cycle(equal)]
    fn eq(&self, other: &ElseIfClause) -> bool {
        self.attributes == other.attributes
            && self.expression == other.expression
            && self.body == other.body
    }
}

impl PartialEq for ElseClause {
    ghost eq = { λ a b. same (else_clause_code (else_clause_view a)) (else_clause_code (else_clause_view b)) };

    ghost laws = { on_per (λ e. else_clause_code (else_clause_view e)) same_partial };

    #[cycle(equal)]
    fn eq(&self, other: &ElseClause) -> bool {
        self.attributes == other.attributes && self.body == other.body
    }
}

impl PartialEq for SwitchStatement {
    ghost eq = { λ a b. same (attributed_code switch_code (switch_statement_view a)) (attributed_code switch_code (switch_statement_view b)) };

    ghost laws = { on_per (λ e. attributed_code switch_code (switch_statement_view e)) same_partial };

    #[cycle(equal)]
    fn eq(&self, other: &SwitchStatement) -> bool {
        self.attributes == other.attributes
            && self.expression == other.expression
            && self.body_attributes == other.body_attributes
            && clauses_equal(&self.clauses, &other.clauses)
    }
}

impl PartialEq for SwitchClause {
    ghost eq = { λ a b. same (switch_clause_code (switch_clause_view a)) (switch_clause_code (switch_clause_view b)) };

    ghost laws = { on_per (λ e. switch_clause_code (switch_clause_view e)) same_partial };

    #[cycle(equal)]
    fn eq(&self, other: &SwitchClause) -> bool {
        self.attributes == other.attributes
            && self.case_selectors == other.case_selectors
            && self.body == other.body
    }
}

impl PartialEq for LoopStatement {
    ghost eq = { λ a b. same (attributed_code loop_code (loop_statement_view a)) (attributed_code loop_code (loop_statement_view b)) };

    ghost laws = { on_per (λ e. attributed_code loop_code (loop_statement_view e)) same_partial };

    #[cycle(equal)]
    fn eq(&self, other: &LoopStatement) -> bool {
        self.attributes == other.attributes
            && self.body == other.body
            && maybe_continuing_equal(&self.continuing, &other.continuing)
    }
}

impl PartialEq for ForStatement {
    ghost eq = { λ a b. same (attributed_code for_code (for_statement_view a)) (attributed_code for_code (for_statement_view b)) };

    ghost laws = { on_per (λ e. attributed_code for_code (for_statement_view e)) same_partial };

    #[cycle(equal)]
    fn eq(&self, other: &ForStatement) -> bool {
        self.attributes == other.attributes
            && part_equal(&self.initializer, &other.initializer)
            && self.condition == other.condition
            && part_equal(&self.update, &other.update)
            && self.body == other.body
    }
}

impl PartialEq for WhileStatement {
    ghost eq = { λ a b. same (attributed_code while_code (while_statement_view a)) (attributed_code while_code (while_statement_view b)) };

    ghost laws = { on_per (λ e. attributed_code while_code (while_statement_view e)) same_partial };

    #[cycle(equal)]
    fn eq(&self, other: &WhileStatement) -> bool {
        self.attributes == other.attributes
            && self.condition == other.condition
            && self.body == other.body
    }
}

impl PartialEq for ContinuingStatement {
    ghost eq = { λ a b. same (continuing_code (continuing_statement_view a)) (continuing_code (continuing_statement_view b)) };

    ghost laws = { on_per (λ e. continuing_code (continuing_statement_view e)) same_partial };

    #[cycle(equal)]
    fn eq(&self, other: &ContinuingStatement) -> bool {
        self.attributes == other.attributes
            && self.body == other.body
            && self.break_if == other.break_if
    }
}

#[cycle(equal)]
fn statements_equal(a: &[StatementNode], b: &[StatementNode]) -> bool
    ensures { result
        ≡ same (list (statements_code (statement_nodes_view a.now)))
        (list (statements_code (statement_nodes_view b.now))) }
{
    if a.len() != b.len() {
        return false;
    }
    'items: for i in 0..a.len() {
        if !(*a[i].node() == *b[i].node()) {
            return false;
        }
    }
    true
}

#[cycle(equal)]
fn else_ifs_equal(a: &[ElseIfClause], b: &[ElseIfClause]) -> bool
    ensures { result
        ≡ same (list (else_ifs_code (else_ifs_of (map else_if_clause_view a.now))))
        (list (else_ifs_code (else_ifs_of (map else_if_clause_view b.now)))) }
{
    if a.len() != b.len() {
        return false;
    }
    'items: for i in 0..a.len() {
        if !(a[i] == b[i]) {
            return false;
        }
    }
    true
}

#[cycle(equal)]
fn else_equal(a: &Option<ElseClause>, b: &Option<ElseClause>) -> bool
    ensures { result
        ≡ same (else_code (else_of (option_map else_clause_view a.now)))
        (else_code (else_of (option_map else_clause_view b.now))) }
{
    match a {
        None => b.is_none(),
        Some(a) => match b {
            None => false,
            Some(b) => *a == *b,
        },
    }
}

#[cycle(equal)]
fn clauses_equal(a: &[SwitchClause], b: &[SwitchClause]) -> bool
    ensures { result
        ≡ same (list (clauses_code (clauses_of (map switch_clause_view a.now))))
        (list (clauses_code (clauses_of (map switch_clause_view b.now)))) }
{
    if a.len() != b.len() {
        return false;
    }
    'items: for i in 0..a.len() {
        if !(a[i] == b[i]) {
            return false;
        }
    }
    true
}

#[cycle(equal)]
fn maybe_continuing_equal(a: &Option<ContinuingStatement>, b: &Option<ContinuingStatement>) -> bool
    ensures { result
        ≡ same (maybe_continuing_code (continuing_of (option_map continuing_statement_view a.now)))
        (maybe_continuing_code (continuing_of (option_map continuing_statement_view b.now))) }
{
    match a {
        None => b.is_none(),
        Some(a) => match b {
            None => false,
            Some(b) => *a == *b,
        },
    }
}

#[cycle(equal)]
fn part_equal(a: &Option<StatementNode>, b: &Option<StatementNode>) -> bool
    ensures { result
        ≡ same (part_code (maybe_statement (option_map statement_node_view a.now)))
        (part_code (maybe_statement (option_map statement_node_view b.now))) }
{
    match a {
        None => b.is_none(),
        Some(a) => match b {
            None => false,
            Some(b) => *a.node() == *b.node(),
        },
    }
}
