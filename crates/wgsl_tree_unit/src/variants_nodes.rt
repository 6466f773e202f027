//! Written by tools/tables/tree_nodes.py from crates/wgsl_model/nodes: which variant a node is,
//! what it holds, and what becomes one.

ghost use Rattle.std.specs.Prelude.{◌≡◌, IsTrue};
ghost use Rattle.wgsl_tree_unit.specs.View.{global_directive_view, global_declaration_view};
ghost use Rattle.wgsl_tree_unit.specs.VariantsNodes.{is_diagnostic, is_enable, is_requires};
ghost use Rattle.wgsl_tree_unit.specs.declared.directive.GlobalDirective.TheVariants as global_directive;
ghost use Rattle.wgsl_model.specs.Printed.Units.{is_void};
ghost use Rattle.wgsl_tree_unit.specs.VariantsNodes.{is_declaration, is_type_alias, is_struct};
ghost use Rattle.wgsl_tree_unit.specs.VariantsNodes.{is_function, is_const_assert};
ghost use Rattle.wgsl_tree_unit.specs.declared.global_declaration.GlobalDeclaration.TheVariants as global_declaration;

use crate::diagnostic::DiagnosticDirective;
use crate::directive::GlobalDirective;
use crate::extensions::{EnableDirective, RequiresDirective};
use crate::function::Function;
use crate::global_declaration::GlobalDeclaration;
use crate::structure::Struct;
use crate::type_alias::TypeAlias;
use wgsl_tree_simple::{ConstAssert, Declaration};

impl GlobalDirective {
    /// Returns whether this is `GlobalDirective::Diagnostic`.
    pub fn is_diagnostic(&self) -> bool
        ensures { result ≡ is_diagnostic (global_directive_view self.now) }
    {
        matches!(self, GlobalDirective::Diagnostic(_))
    }

    /// Returns whether this is `GlobalDirective::Enable`.
    pub fn is_enable(&self) -> bool
        ensures { result ≡ is_enable (global_directive_view self.now) }
    {
        matches!(self, GlobalDirective::Enable(_))
    }

    /// Returns whether this is `GlobalDirective::Requires`.
    pub fn is_requires(&self) -> bool
        ensures { result ≡ is_requires (global_directive_view self.now) }
    {
        matches!(self, GlobalDirective::Requires(_))
    }

    /// Returns what this `GlobalDirective::Diagnostic` holds.
    pub fn unwrap_diagnostic(self) -> DiagnosticDirective
        requires { IsTrue (is_diagnostic (global_directive_view self)) }
        ensures { self ≡ global_directive.Diagnostic result }
    {
        let GlobalDirective::Diagnostic(inner) = self else {
            unreachable!()
        };
        inner
    }

    /// Returns what this `GlobalDirective::Enable` holds.
    pub fn unwrap_enable(self) -> EnableDirective
        requires { IsTrue (is_enable (global_directive_view self)) }
        ensures { self ≡ global_directive.Enable result }
    {
        let GlobalDirective::Enable(inner) = self else {
            unreachable!()
        };
        inner
    }

    /// Returns what this `GlobalDirective::Requires` holds.
    pub fn unwrap_requires(self) -> RequiresDirective
        requires { IsTrue (is_requires (global_directive_view self)) }
        ensures { self ≡ global_directive.Requires result }
    {
        let GlobalDirective::Requires(inner) = self else {
            unreachable!()
        };
        inner
    }
}

impl From<DiagnosticDirective> for GlobalDirective {
    ghost from_gives = { λ inner made. made ≡ global_directive.Diagnostic inner };

    fn from(inner: DiagnosticDirective) -> Self {
        GlobalDirective::Diagnostic(inner)
    }
}

impl From<EnableDirective> for GlobalDirective {
    ghost from_gives = { λ inner made. made ≡ global_directive.Enable inner };

    fn from(inner: EnableDirective) -> Self {
        GlobalDirective::Enable(inner)
    }
}

impl From<RequiresDirective> for GlobalDirective {
    ghost from_gives = { λ inner made. made ≡ global_directive.Requires inner };

    fn from(inner: RequiresDirective) -> Self {
        GlobalDirective::Requires(inner)
    }
}

impl GlobalDeclaration {
    /// Returns whether this is `GlobalDeclaration::Void`.
    pub fn is_void(&self) -> bool
        ensures { result ≡ is_void (global_declaration_view self.now) }
    {
        matches!(self, GlobalDeclaration::Void)
    }

    /// Returns whether this is `GlobalDeclaration::Declaration`.
    pub fn is_declaration(&self) -> bool
        ensures { result ≡ is_declaration (global_declaration_view self.now) }
    {
        matches!(self, GlobalDeclaration::Declaration(_))
    }

    /// Returns whether this is `GlobalDeclaration::TypeAlias`.
    pub fn is_type_alias(&self) -> bool
        ensures { result ≡ is_type_alias (global_declaration_view self.now) }
    {
        matches!(self, GlobalDeclaration::TypeAlias(_))
    }

    /// Returns whether this is `GlobalDeclaration::Struct`.
    pub fn is_struct(&self) -> bool
        ensures { result ≡ is_struct (global_declaration_view self.now) }
    {
        matches!(self, GlobalDeclaration::Struct(_))
    }

    /// Returns whether this is `GlobalDeclaration::Function`.
    pub fn is_function(&self) -> bool
        ensures { result ≡ is_function (global_declaration_view self.now) }
    {
        matches!(self, GlobalDeclaration::Function(_))
    }

    /// Returns whether this is `GlobalDeclaration::ConstAssert`.
    pub fn is_const_assert(&self) -> bool
        ensures { result ≡ is_const_assert (global_declaration_view self.now) }
    {
        matches!(self, GlobalDeclaration::ConstAssert(_))
    }

    /// Consumes this `GlobalDeclaration::Void`, which holds nothing.
    pub fn unwrap_void(self)
        requires { IsTrue (is_void (global_declaration_view self)) }
        ensures { self ≡ global_declaration.Void }
    {
        let GlobalDeclaration::Void = self else {
            unreachable!()
        };
    }

    /// Returns what this `GlobalDeclaration::Declaration` holds.
    pub fn unwrap_declaration(self) -> Declaration
        requires { IsTrue (is_declaration (global_declaration_view self)) }
        ensures { self ≡ global_declaration.Declaration result }
    {
        let GlobalDeclaration::Declaration(inner) = self else {
            unreachable!()
        };
        inner
    }

    /// Returns what this `GlobalDeclaration::TypeAlias` holds.
    pub fn unwrap_type_alias(self) -> TypeAlias
        requires { IsTrue (is_type_alias (global_declaration_view self)) }
        ensures { self ≡ global_declaration.TypeAlias result }
    {
        let GlobalDeclaration::TypeAlias(inner) = self else {
            unreachable!()
        };
        inner
    }

    /// Returns what this `GlobalDeclaration::Struct` holds.
    pub fn unwrap_struct(self) -> Struct
        requires { IsTrue (is_struct (global_declaration_view self)) }
        ensures { self ≡ global_declaration.Struct result }
    {
        let GlobalDeclaration::Struct(inner) = self else {
            unreachable!()
        };
        inner
    }

    /// Returns what this `GlobalDeclaration::Function` holds.
    pub fn unwrap_function(self) -> Function
        requires { IsTrue (is_function (global_declaration_view self)) }
        ensures { self ≡ global_declaration.Function result }
    {
        let GlobalDeclaration::Function(inner) = self else {
            unreachable!()
        };
        inner
    }

    /// Returns what this `GlobalDeclaration::ConstAssert` holds.
    pub fn unwrap_const_assert(self) -> ConstAssert
        requires { IsTrue (is_const_assert (global_declaration_view self)) }
        ensures { self ≡ global_declaration.ConstAssert result }
    {
        let GlobalDeclaration::ConstAssert(inner) = self else {
            unreachable!()
        };
        inner
    }
}

impl From<Declaration> for GlobalDeclaration {
    ghost from_gives = { λ inner made. made ≡ global_declaration.Declaration inner };

    fn from(inner: Declaration) -> Self {
        GlobalDeclaration::Declaration(inner)
    }
}

impl From<TypeAlias> for GlobalDeclaration {
    ghost from_gives = { λ inner made. made ≡ global_declaration.TypeAlias inner };

    fn from(inner: TypeAlias) -> Self {
        GlobalDeclaration::TypeAlias(inner)
    }
}

impl From<Struct> for GlobalDeclaration {
    ghost from_gives = { λ inner made. made ≡ global_declaration.Struct inner };

    fn from(inner: Struct) -> Self {
        GlobalDeclaration::Struct(inner)
    }
}

impl From<Function> for GlobalDeclaration {
    ghost from_gives = { λ inner made. made ≡ global_declaration.Function inner };

    fn from(inner: Function) -> Self {
        GlobalDeclaration::Function(inner)
    }
}

impl From<ConstAssert> for GlobalDeclaration {
    ghost from_gives = { λ inner made. made ≡ global_declaration.ConstAssert inner };

    fn from(inner: ConstAssert) -> Self {
        GlobalDeclaration::ConstAssert(inner)
    }
}
