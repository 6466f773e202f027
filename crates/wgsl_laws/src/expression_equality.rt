//! What the derived `==` of names and of literals says; the laws of the others are those of their
//! codes.

ghost use Rattle.std.specs.Prelude.{◌≡◌, ◌↔◌, IsTrue};
ghost use Rattle.wgsl_tree_expression.specs.declared.ident.Ident.{Ident};
ghost use Rattle.wgsl_tree_expression.specs.declared.literal.LiteralExpression.{LiteralExpression};
ghost use Rattle.wgsl_tree_expression.specs.View.{ident_name, literal_view};
ghost use Rattle.wgsl_tree_expression.specs.Equality.{equal_idents, equal_literals};

/// Two names are equal where they are spelled alike.
#[tactic(auto, using(wgsl_tree_expression::proofs::DerivedEqualities::idents_agree))]
pub fn idents()
    ensures { (a b : Ident) → IsTrue (equal_idents a b) ↔ (ident_name a ≡ ident_name b) }
{}

/// Two literals are equal where they are one.
#[tactic(auto, using(wgsl_tree_expression::proofs::DerivedEqualities::literals_agree))]
pub fn literals()
    ensures { (a b : LiteralExpression) →
        IsTrue (equal_literals a b) ↔ (literal_view a ≡ literal_view b) }
{}
