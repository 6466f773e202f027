//! Declarations of values.

ghost use Rattle.std.specs.Prelude.{Some, MatchResult};
ghost use Rattle.std.specs.Option.{option_map};
ghost use Rattle.std.specs.Fmt.{WritesOnOk};
ghost use Rattle.wgsl_model.specs.Printed.Declarations.{print_attributed, print_kind, print_typed, print_initializer, print_declaration, unended_declaration};
ghost use Rattle.wgsl_tree_expression.specs.View.{expression_node_view, type_expression_view};
ghost use Rattle.wgsl_tree_simple.specs.View.{declaration_kind_view, declaration_view};
ghost use Rattle.wgsl_tree_simple.specs.Kinds.{IsKindWord};
ghost use Rattle.wgsl_model.specs.Trees.Statements as plain;

use crate::attributes::write_attributes;
use crate::unended::Unended;
use std::fmt;
use std::fmt::Write;
use wgsl_tree_attribute::Attributes;
use wgsl_tree_expression::{ExpressionNode, Ident, TypeExpression};
use wgsl_tree_words::{AccessMode, AddressSpace};

/// The kinds of declared values; a `var` with its template.
#[derive(Clone, Copy, PartialEq, Eq, Debug)]
pub enum DeclarationKind {
    Const,
    Override,
    Let,
    Var(Option<(AddressSpace, Option<AccessMode>)>),
}

impl DeclarationKind {
    /// Returns the kind whose word the text is; `var` is one without a template.
    pub fn from_str(text: &str) -> Result<Self, ()>
        ensures { MatchResult result (λ kind. IsKindWord (declaration_kind_view kind) text.now)
            (λ _. (kind : plain.DeclarationKind) → ¬ IsKindWord kind text.now) }
    {
        match text {
            "const" => Ok(DeclarationKind::Const),
            "override" => Ok(DeclarationKind::Override),
            "let" => Ok(DeclarationKind::Let),
            "var" => Ok(DeclarationKind::Var(None)),
            _ => Err(()),
        }
    }
}

impl fmt::Display for DeclarationKind {
    ghost output = { λ kind. Some (print_kind (declaration_kind_view kind)) };

    fn fmt<W: fmt::Write>(&self, f: &mut fmt::Formatter<W>) -> fmt::Result {
        match self {
            DeclarationKind::Const => f.write_str("const"),
            DeclarationKind::Override => f.write_str("override"),
            DeclarationKind::Let => f.write_str("let"),
            DeclarationKind::Var(None) => f.write_str("var"),
            DeclarationKind::Var(Some((space, None))) => write!(f, "var<{space}>"),
            DeclarationKind::Var(Some((space, Some(mode)))) => write!(f, "var<{space}, {mode}>"),
        }
    }
}

/// The declaration of a value.
#[derive(PartialEq, Debug, Drop)]
pub struct Declaration {
    pub attributes: Attributes,
    pub kind: DeclarationKind,
    pub ident: Ident,
    pub ty: Option<TypeExpression>,
    pub initializer: Option<ExpressionNode>,
}

/// A declaration as a statement.
pub type DeclarationStatement = Declaration;

impl fmt::Display for Declaration {
    ghost output = { λ declaration. Some (print_attributed print_declaration (declaration_view declaration)) };

    #[tactic(auto, using(std::proofs::lemmas::List::append_assoc))]
    fn fmt<W: fmt::Write>(&self, f: &mut fmt::Formatter<W>) -> fmt::Result {
        write!(f, "{};", Unended(self))
    }
}

impl fmt::Display for Unended<'_, Declaration> {
    ghost output = { λ statement. Some (print_attributed unended_declaration (declaration_view statement.0.now)) };

    fn fmt<W: fmt::Write>(&self, f: &mut fmt::Formatter<W>) -> fmt::Result {
        write_attributes(&self.0.attributes, f)?;
        write_value(self.0, f)
    }
}

/// Writes a declaration without its attributes and without the `;` that ends it.
fn write_value<W: fmt::Write>(declaration: &Declaration, f: &mut fmt::Formatter<W>) -> fmt::Result
    ensures { WritesOnOk W.write_str_gives f.old result
        (unended_declaration (declaration_view declaration.now).node) f.new }
{
    let kind = declaration.kind;
    let ident = &declaration.ident;
    write!(f, "{kind} {ident}")?;
    write_type(&declaration.ty, f)?;
    write_initializer(&declaration.initializer, f)
}

/// Writes the type after a colon, if there is one.
fn write_type<W: fmt::Write>(ty: &Option<TypeExpression>, f: &mut fmt::Formatter<W>) -> fmt::Result
    ensures { WritesOnOk W.write_str_gives f.old result
        (print_typed (option_map type_expression_view ty.now)) f.new }
{
    match ty {
        None => Ok(()),
        Some(ty) => write!(f, ": {ty}"),
    }
}

/// Writes the value after an equals sign, if there is one.
fn write_initializer<W: fmt::Write>(
    initializer: &Option<ExpressionNode>,
    f: &mut fmt::Formatter<W>,
) -> fmt::Result
    ensures { WritesOnOk W.write_str_gives f.old result
        (print_initializer (option_map expression_node_view initializer.now)) f.new }
{
    match initializer {
        None => Ok(()),
        Some(initializer) => write!(f, " = {initializer}"),
    }
}
