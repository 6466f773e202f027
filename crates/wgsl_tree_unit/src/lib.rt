//! Modules, their directives and their declarations.
#![tactic(auto)]

mod copies_nodes;
mod diagnostic;
mod directive;
mod extensions;
mod function;
mod global_declaration;
mod structure;
mod type_alias;
mod unit;
mod variants_nodes;

pub use diagnostic::DiagnosticDirective;
pub use directive::GlobalDirective;
pub use extensions::{EnableDirective, RequiresDirective};
pub use function::{FormalParameter, Function};
pub use global_declaration::{GlobalDeclaration, GlobalDeclarationNode};
pub use structure::{Struct, StructMember, StructMemberNode};
pub use type_alias::TypeAlias;
pub use unit::TranslationUnit;
