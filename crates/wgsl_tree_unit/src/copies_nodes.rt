//! Written by tools/tables/tree_copies.py from crates/wgsl_model/nodes: copies of nodes.

ghost use Rattle.std.specs.Prelude.{◌≡◌, IfOk};
ghost use Rattle.wgsl_tree_unit.specs.View.{unit_view, global_directive_view};
ghost use Rattle.wgsl_tree_unit.specs.View.{global_declaration_view, diagnostic_directive_view};
ghost use Rattle.wgsl_tree_unit.specs.View.{enable_directive_view, requires_directive_view};
ghost use Rattle.wgsl_tree_unit.specs.View.{struct_view, member_view, type_alias_view};
ghost use Rattle.wgsl_tree_unit.specs.View.{function_view, parameter_view};

use crate::diagnostic::DiagnosticDirective;
use crate::directive::GlobalDirective;
use crate::extensions::{EnableDirective, RequiresDirective, clone_names};
use crate::function::{FormalParameter, Function};
use crate::global_declaration::GlobalDeclaration;
use crate::structure::{Struct, StructMember};
use crate::type_alias::TypeAlias;
use crate::unit::TranslationUnit;
use std::alloc::{AllocError, Global};
use wgsl_span::CloneWith;
use wgsl_tree_simple::clone_attributes;

impl TranslationUnit {
    /// Returns a copy, unless allocation fails.
    pub fn clone(&self, alloc: Global) -> Result<Self, AllocError>
        ensures { IfOk result (λ copy. unit_view copy ≡ unit_view self.now) }
    {
        self.clone_with(alloc)
    }
}

impl CloneWith for TranslationUnit {
    ghost copies = { λ node copy. unit_view copy ≡ unit_view node };

    fn clone_with(&self, alloc: Global) -> Result<Self, AllocError> {
        Ok(TranslationUnit {
            global_directives: self.global_directives.clone_with(alloc)?,
            global_declarations: self.global_declarations.clone_with(alloc)?,
        })
    }
}

impl GlobalDirective {
    /// Returns a copy, unless allocation fails.
    pub fn clone(&self, alloc: Global) -> Result<Self, AllocError>
        ensures { IfOk result (λ copy. global_directive_view copy ≡ global_directive_view self.now) }
    {
        self.clone_with(alloc)
    }
}

impl CloneWith for GlobalDirective {
    ghost copies = { λ node copy. global_directive_view copy ≡ global_directive_view node };

    fn clone_with(&self, alloc: Global) -> Result<Self, AllocError> {
        match self {
            GlobalDirective::Diagnostic(inner) => {
                Ok(GlobalDirective::Diagnostic(inner.clone_with(alloc)?))
            }
            GlobalDirective::Enable(inner) => Ok(GlobalDirective::Enable(inner.clone_with(alloc)?)),
            GlobalDirective::Requires(inner) => {
                Ok(GlobalDirective::Requires(inner.clone_with(alloc)?))
            }
        }
    }
}

impl GlobalDeclaration {
    /// Returns a copy, unless allocation fails.
    pub fn clone(&self, alloc: Global) -> Result<Self, AllocError>
        ensures { IfOk result (λ copy.
            global_declaration_view copy ≡ global_declaration_view self.now) }
    {
        self.clone_with(alloc)
    }
}

impl CloneWith for GlobalDeclaration {
    ghost copies = { λ node copy. global_declaration_view copy ≡ global_declaration_view node };

    fn clone_with(&self, alloc: Global) -> Result<Self, AllocError> {
        match self {
            GlobalDeclaration::Void => Ok(GlobalDeclaration::Void),
            GlobalDeclaration::Declaration(inner) => {
                Ok(GlobalDeclaration::Declaration(inner.clone_with(alloc)?))
            }
            GlobalDeclaration::TypeAlias(inner) => {
                Ok(GlobalDeclaration::TypeAlias(inner.clone_with(alloc)?))
            }
            GlobalDeclaration::Struct(inner) => {
                Ok(GlobalDeclaration::Struct(inner.clone_with(alloc)?))
            }
            GlobalDeclaration::Function(inner) => {
                Ok(GlobalDeclaration::Function(inner.clone_with(alloc)?))
            }
            GlobalDeclaration::ConstAssert(inner) => {
                Ok(GlobalDeclaration::ConstAssert(inner.clone_with(alloc)?))
            }
        }
    }
}

impl DiagnosticDirective {
    /// Returns a copy, unless allocation fails.
    pub fn clone(&self, alloc: Global) -> Result<Self, AllocError>
        ensures { IfOk result (λ copy.
            diagnostic_directive_view copy ≡ diagnostic_directive_view self.now) }
    {
        self.clone_with(alloc)
    }
}

impl CloneWith for DiagnosticDirective {
    ghost copies = { λ node copy. diagnostic_directive_view copy ≡ diagnostic_directive_view node };

    fn clone_with(&self, alloc: Global) -> Result<Self, AllocError> {
        Ok(DiagnosticDirective {
            attributes: clone_attributes(&self.attributes, alloc)?,
            severity: self.severity,
            rule_name: String::from_str(alloc, self.rule_name.as_str())?,
        })
    }
}

impl EnableDirective {
    /// Returns a copy, unless allocation fails.
    pub fn clone(&self, alloc: Global) -> Result<Self, AllocError>
        ensures { IfOk result (λ copy. enable_directive_view copy ≡ enable_directive_view self.now) }
    {
        self.clone_with(alloc)
    }
}

impl CloneWith for EnableDirective {
    ghost copies = { λ node copy. enable_directive_view copy ≡ enable_directive_view node };

    fn clone_with(&self, alloc: Global) -> Result<Self, AllocError> {
        Ok(EnableDirective {
            attributes: clone_attributes(&self.attributes, alloc)?,
            extensions: clone_names(&self.extensions, alloc)?,
        })
    }
}

impl RequiresDirective {
    /// Returns a copy, unless allocation fails.
    pub fn clone(&self, alloc: Global) -> Result<Self, AllocError>
        ensures { IfOk result (λ copy.
            requires_directive_view copy ≡ requires_directive_view self.now) }
    {
        self.clone_with(alloc)
    }
}

impl CloneWith for RequiresDirective {
    ghost copies = { λ node copy. requires_directive_view copy ≡ requires_directive_view node };

    fn clone_with(&self, alloc: Global) -> Result<Self, AllocError> {
        Ok(RequiresDirective {
            attributes: clone_attributes(&self.attributes, alloc)?,
            extensions: clone_names(&self.extensions, alloc)?,
        })
    }
}

impl Struct {
    /// Returns a copy, unless allocation fails.
    pub fn clone(&self, alloc: Global) -> Result<Self, AllocError>
        ensures { IfOk result (λ copy. struct_view copy ≡ struct_view self.now) }
    {
        self.clone_with(alloc)
    }
}

impl CloneWith for Struct {
    ghost copies = { λ node copy. struct_view copy ≡ struct_view node };

    fn clone_with(&self, alloc: Global) -> Result<Self, AllocError> {
        Ok(Struct {
            attributes: clone_attributes(&self.attributes, alloc)?,
            ident: self.ident.clone_with(alloc)?,
            members: self.members.clone_with(alloc)?,
        })
    }
}

impl StructMember {
    /// Returns a copy, unless allocation fails.
    pub fn clone(&self, alloc: Global) -> Result<Self, AllocError>
        ensures { IfOk result (λ copy. member_view copy ≡ member_view self.now) }
    {
        self.clone_with(alloc)
    }
}

impl CloneWith for StructMember {
    ghost copies = { λ node copy. member_view copy ≡ member_view node };

    fn clone_with(&self, alloc: Global) -> Result<Self, AllocError> {
        Ok(StructMember {
            attributes: clone_attributes(&self.attributes, alloc)?,
            ident: self.ident.clone_with(alloc)?,
            ty: self.ty.clone_with(alloc)?,
        })
    }
}

impl TypeAlias {
    /// Returns a copy, unless allocation fails.
    pub fn clone(&self, alloc: Global) -> Result<Self, AllocError>
        ensures { IfOk result (λ copy. type_alias_view copy ≡ type_alias_view self.now) }
    {
        self.clone_with(alloc)
    }
}

impl CloneWith for TypeAlias {
    ghost copies = { λ node copy. type_alias_view copy ≡ type_alias_view node };

    fn clone_with(&self, alloc: Global) -> Result<Self, AllocError> {
        Ok(TypeAlias {
            attributes: clone_attributes(&self.attributes, alloc)?,
            ident: self.ident.clone_with(alloc)?,
            ty: self.ty.clone_with(alloc)?,
        })
    }
}

impl Function {
    /// Returns a copy, unless allocation fails.
    pub fn clone(&self, alloc: Global) -> Result<Self, AllocError>
        ensures { IfOk result (λ copy. function_view copy ≡ function_view self.now) }
    {
        self.clone_with(alloc)
    }
}

impl CloneWith for Function {
    ghost copies = { λ node copy. function_view copy ≡ function_view node };

    fn clone_with(&self, alloc: Global) -> Result<Self, AllocError> {
        Ok(Function {
            attributes: clone_attributes(&self.attributes, alloc)?,
            ident: self.ident.clone_with(alloc)?,
            parameters: self.parameters.clone_with(alloc)?,
            return_attributes: clone_attributes(&self.return_attributes, alloc)?,
            return_type: self.return_type.clone_with(alloc)?,
            body: self.body.clone_with(alloc)?,
        })
    }
}

impl FormalParameter {
    /// Returns a copy, unless allocation fails.
    pub fn clone(&self, alloc: Global) -> Result<Self, AllocError>
        ensures { IfOk result (λ copy. parameter_view copy ≡ parameter_view self.now) }
    {
        self.clone_with(alloc)
    }
}

impl CloneWith for FormalParameter {
    ghost copies = { λ node copy. parameter_view copy ≡ parameter_view node };

    fn clone_with(&self, alloc: Global) -> Result<Self, AllocError> {
        Ok(FormalParameter {
            attributes: clone_attributes(&self.attributes, alloc)?,
            ident: self.ident.clone_with(alloc)?,
            ty: self.ty.clone_with(alloc)?,
        })
    }
}
