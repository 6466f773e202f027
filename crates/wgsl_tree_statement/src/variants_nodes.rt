//! Written by tools/tables/tree_nodes.py from crates/wgsl_model/nodes: which variant a node is,
//! what it holds, and what becomes one.

ghost use Rattle.std.specs.Prelude.{◌≡◌, IsTrue};
ghost use Rattle.wgsl_tree_statement.specs.View.{statement_view};
ghost use Rattle.wgsl_model.specs.Printed.Statements.{is_void};
ghost use Rattle.wgsl_tree_statement.specs.VariantsNodes.{is_compound, is_assignment, is_increment};
ghost use Rattle.wgsl_tree_statement.specs.VariantsNodes.{is_decrement, is_if, is_switch, is_loop};
ghost use Rattle.wgsl_tree_statement.specs.VariantsNodes.{is_for, is_while, is_break, is_continue};
ghost use Rattle.wgsl_tree_statement.specs.VariantsNodes.{is_return, is_discard, is_function_call};
ghost use Rattle.wgsl_tree_statement.specs.VariantsNodes.{is_const_assert, is_declaration};
ghost use Rattle.wgsl_tree_statement.specs.declared.statement.Statement.TheVariants as statement;

use crate::compound::CompoundStatement;
use crate::for_statement::ForStatement;
use crate::if_statement::IfStatement;
use crate::loop_statement::LoopStatement;
use crate::statement::Statement;
use crate::switch::SwitchStatement;
use crate::while_statement::WhileStatement;
use wgsl_tree_simple::{
    AssignmentStatement, BreakStatement, ConstAssert, ContinueStatement, Declaration,
    DecrementStatement, DiscardStatement, FunctionCallStatement, IncrementStatement,
    ReturnStatement,
};

impl Statement {
    /// Returns whether this is `Statement::Void`.
    pub fn is_void(&self) -> bool
        ensures { result ≡ is_void (statement_view self.now) }
    {
        matches!(self, Statement::Void)
    }

    /// Returns whether this is `Statement::Compound`.
    pub fn is_compound(&self) -> bool
        ensures { result ≡ is_compound (statement_view self.now) }
    {
        matches!(self, Statement::Compound(_))
    }

    /// Returns whether this is `Statement::Assignment`.
    pub fn is_assignment(&self) -> bool
        ensures { result ≡ is_assignment (statement_view self.now) }
    {
        matches!(self, Statement::Assignment(_))
    }

    /// Returns whether this is `Statement::Increment`.
    pub fn is_increment(&self) -> bool
        ensures { result ≡ is_increment (statement_view self.now) }
    {
        matches!(self, Statement::Increment(_))
    }

    /// Returns whether this is `Statement::Decrement`.
    pub fn is_decrement(&self) -> bool
        ensures { result ≡ is_decrement (statement_view self.now) }
    {
        matches!(self, Statement::Decrement(_))
    }

    /// Returns whether this is `Statement::If`.
    pub fn is_if(&self) -> bool
        ensures { result ≡ is_if (statement_view self.now) }
    {
        matches!(self, Statement::If(_))
    }

    /// Returns whether this is `Statement::Switch`.
    pub fn is_switch(&self) -> bool
        ensures { result ≡ is_switch (statement_view self.now) }
    {
        matches!(self, Statement::Switch(_))
    }

    /// Returns whether this is `Statement::Loop`.
    pub fn is_loop(&self) -> bool
        ensures { result ≡ is_loop (statement_view self.now) }
    {
        matches!(self, Statement::Loop(_))
    }

    /// Returns whether this is `Statement::For`.
    pub fn is_for(&self) -> bool
        ensures { result ≡ is_for (statement_view self.now) }
    {
        matches!(self, Statement::For(_))
    }

    /// Returns whether this is `Statement::While`.
    pub fn is_while(&self) -> bool
        ensures { result ≡ is_while (statement_view self.now) }
    {
        matches!(self, Statement::While(_))
    }

    /// Returns whether this is `Statement::Break`.
    pub fn is_break(&self) -> bool
        ensures { result ≡ is_break (statement_view self.now) }
    {
        matches!(self, Statement::Break(_))
    }

    /// Returns whether this is `Statement::Continue`.
    pub fn is_continue(&self) -> bool
        ensures { result ≡ is_continue (statement_view self.now) }
    {
        matches!(self, Statement::Continue(_))
    }

    /// Returns whether this is `Statement::Return`.
    pub fn is_return(&self) -> bool
        ensures { result ≡ is_return (statement_view self.now) }
    {
        matches!(self, Statement::Return(_))
    }

    /// Returns whether this is `Statement::Discard`.
    pub fn is_discard(&self) -> bool
        ensures { result ≡ is_discard (statement_view self.now) }
    {
        matches!(self, Statement::Discard(_))
    }

    /// Returns whether this is `Statement::FunctionCall`.
    pub fn is_function_call(&self) -> bool
        ensures { result ≡ is_function_call (statement_view self.now) }
    {
        matches!(self, Statement::FunctionCall(_))
    }

    /// Returns whether this is `Statement::ConstAssert`.
    pub fn is_const_assert(&self) -> bool
        ensures { result ≡ is_const_assert (statement_view self.now) }
    {
        matches!(self, Statement::ConstAssert(_))
    }

    /// Returns whether this is `Statement::Declaration`.
    pub fn is_declaration(&self) -> bool
        ensures { result ≡ is_declaration (statement_view self.now) }
    {
        matches!(self, Statement::Declaration(_))
    }

    /// Consumes this `Statement::Void`, which holds nothing.
    pub fn unwrap_void(self)
        requires { IsTrue (is_void (statement_view self)) }
        ensures { self ≡ statement.Void }
    {
        let Statement::Void = self else {
            unreachable!()
        };
    }

    /// Returns what this `Statement::Compound` holds.
    pub fn unwrap_compound(self) -> CompoundStatement
        requires { IsTrue (is_compound (statement_view self)) }
        ensures { self ≡ statement.Compound result }
    {
        let Statement::Compound(inner) = self else {
            unreachable!()
        };
        inner
    }

    /// Returns what this `Statement::Assignment` holds.
    pub fn unwrap_assignment(self) -> AssignmentStatement
        requires { IsTrue (is_assignment (statement_view self)) }
        ensures { self ≡ statement.Assignment result }
    {
        let Statement::Assignment(inner) = self else {
            unreachable!()
        };
        inner
    }

    /// Returns what this `Statement::Increment` holds.
    pub fn unwrap_increment(self) -> IncrementStatement
        requires { IsTrue (is_increment (statement_view self)) }
        ensures { self ≡ statement.Increment result }
    {
        let Statement::Increment(inner) = self else {
            unreachable!()
        };
        inner
    }

    /// Returns what this `Statement::Decrement` holds.
    pub fn unwrap_decrement(self) -> DecrementStatement
        requires { IsTrue (is_decrement (statement_view self)) }
        ensures { self ≡ statement.Decrement result }
    {
        let Statement::Decrement(inner) = self else {
            unreachable!()
        };
        inner
    }

    /// Returns what this `Statement::If` holds.
    pub fn unwrap_if(self) -> IfStatement
        requires { IsTrue (is_if (statement_view self)) }
        ensures { self ≡ statement.If result }
    {
        let Statement::If(inner) = self else {
            unreachable!()
        };
        inner
    }

    /// Returns what this `Statement::Switch` holds.
    pub fn unwrap_switch(self) -> SwitchStatement
        requires { IsTrue (is_switch (statement_view self)) }
        ensures { self ≡ statement.Switch result }
    {
        let Statement::Switch(inner) = self else {
            unreachable!()
        };
        inner
    }

    /// Returns what this `Statement::Loop` holds.
    pub fn unwrap_loop(self) -> LoopStatement
        requires { IsTrue (is_loop (statement_view self)) }
        ensures { self ≡ statement.Loop result }
    {
        let Statement::Loop(inner) = self else {
            unreachable!()
        };
        inner
    }

    /// Returns what this `Statement::For` holds.
    pub fn unwrap_for(self) -> ForStatement
        requires { IsTrue (is_for (statement_view self)) }
        ensures { self ≡ statement.For result }
    {
        let Statement::For(inner) = self else {
            unreachable!()
        };
        inner
    }

    /// Returns what this `Statement::While` holds.
    pub fn unwrap_while(self) -> WhileStatement
        requires { IsTrue (is_while (statement_view self)) }
        ensures { self ≡ statement.While result }
    {
        let Statement::While(inner) = self else {
            unreachable!()
        };
        inner
    }

    /// Returns what this `Statement::Break` holds.
    pub fn unwrap_break(self) -> BreakStatement
        requires { IsTrue (is_break (statement_view self)) }
        ensures { self ≡ statement.Break result }
    {
        let Statement::Break(inner) = self else {
            unreachable!()
        };
        inner
    }

    /// Returns what this `Statement::Continue` holds.
    pub fn unwrap_continue(self) -> ContinueStatement
        requires { IsTrue (is_continue (statement_view self)) }
        ensures { self ≡ statement.Continue result }
    {
        let Statement::Continue(inner) = self else {
            unreachable!()
        };
        inner
    }

    /// Returns what this `Statement::Return` holds.
    pub fn unwrap_return(self) -> ReturnStatement
        requires { IsTrue (is_return (statement_view self)) }
        ensures { self ≡ statement.Return result }
    {
        let Statement::Return(inner) = self else {
            unreachable!()
        };
        inner
    }

    /// Returns what this `Statement::Discard` holds.
    pub fn unwrap_discard(self) -> DiscardStatement
        requires { IsTrue (is_discard (statement_view self)) }
        ensures { self ≡ statement.Discard result }
    {
        let Statement::Discard(inner) = self else {
            unreachable!()
        };
        inner
    }

    /// Returns what this `Statement::FunctionCall` holds.
    pub fn unwrap_function_call(self) -> FunctionCallStatement
        requires { IsTrue (is_function_call (statement_view self)) }
        ensures { self ≡ statement.FunctionCall result }
    {
        let Statement::FunctionCall(inner) = self else {
            unreachable!()
        };
        inner
    }

    /// Returns what this `Statement::ConstAssert` holds.
    pub fn unwrap_const_assert(self) -> ConstAssert
        requires { IsTrue (is_const_assert (statement_view self)) }
        ensures { self ≡ statement.ConstAssert result }
    {
        let Statement::ConstAssert(inner) = self else {
            unreachable!()
        };
        inner
    }

    /// Returns what this `Statement::Declaration` holds.
    pub fn unwrap_declaration(self) -> Declaration
        requires { IsTrue (is_declaration (statement_view self)) }
        ensures { self ≡ statement.Declaration result }
    {
        let Statement::Declaration(inner) = self else {
            unreachable!()
        };
        inner
    }
}

impl From<CompoundStatement> for Statement {
    ghost from_gives = { λ inner made. made ≡ statement.Compound inner };

    fn from(inner: CompoundStatement) -> Self {
        Statement::Compound(inner)
    }
}

impl From<AssignmentStatement> for Statement {
    ghost from_gives = { λ inner made. made ≡ statement.Assignment inner };

    fn from(inner: AssignmentStatement) -> Self {
        Statement::Assignment(inner)
    }
}

impl From<IncrementStatement> for Statement {
    ghost from_gives = { λ inner made. made ≡ statement.Increment inner };

    fn from(inner: IncrementStatement) -> Self {
        Statement::Increment(inner)
    }
}

impl From<DecrementStatement> for Statement {
    ghost from_gives = { λ inner made. made ≡ statement.Decrement inner };

    fn from(inner: DecrementStatement) -> Self {
        Statement::Decrement(inner)
    }
}

impl From<IfStatement> for Statement {
    ghost from_gives = { λ inner made. made ≡ statement.If inner };

    fn from(inner: IfStatement) -> Self {
        Statement::If(inner)
    }
}

impl From<SwitchStatement> for Statement {
    ghost from_gives = { λ inner made. made ≡ statement.Switch inner };

    fn from(inner: SwitchStatement) -> Self {
        Statement::Switch(inner)
    }
}

impl From<LoopStatement> for Statement {
    ghost from_gives = { λ inner made. made ≡ statement.Loop inner };

    fn from(inner: LoopStatement) -> Self {
        Statement::Loop(inner)
    }
}

impl From<ForStatement> for Statement {
    ghost from_gives = { λ inner made. made ≡ statement.For inner };

    fn from(inner: ForStatement) -> Self {
        Statement::For(inner)
    }
}

impl From<WhileStatement> for Statement {
    ghost from_gives = { λ inner made. made ≡ statement.While inner };

    fn from(inner: WhileStatement) -> Self {
        Statement::While(inner)
    }
}

impl From<BreakStatement> for Statement {
    ghost from_gives = { λ inner made. made ≡ statement.Break inner };

    fn from(inner: BreakStatement) -> Self {
        Statement::Break(inner)
    }
}

impl From<ContinueStatement> for Statement {
    ghost from_gives = { λ inner made. made ≡ statement.Continue inner };

    fn from(inner: ContinueStatement) -> Self {
        Statement::Continue(inner)
    }
}

impl From<ReturnStatement> for Statement {
    ghost from_gives = { λ inner made. made ≡ statement.Return inner };

    fn from(inner: ReturnStatement) -> Self {
        Statement::Return(inner)
    }
}

impl From<DiscardStatement> for Statement {
    ghost from_gives = { λ inner made. made ≡ statement.Discard inner };

    fn from(inner: DiscardStatement) -> Self {
        Statement::Discard(inner)
    }
}

impl From<FunctionCallStatement> for Statement {
    ghost from_gives = { λ inner made. made ≡ statement.FunctionCall inner };

    fn from(inner: FunctionCallStatement) -> Self {
        Statement::FunctionCall(inner)
    }
}

impl From<ConstAssert> for Statement {
    ghost from_gives = { λ inner made. made ≡ statement.ConstAssert inner };

    fn from(inner: ConstAssert) -> Self {
        Statement::ConstAssert(inner)
    }
}

impl From<Declaration> for Statement {
    ghost from_gives = { λ inner made. made ≡ statement.Declaration inner };

    fn from(inner: Declaration) -> Self {
        Statement::Declaration(inner)
    }
}
