//! What `==` of names says, and that equal names hash alike.

ghost use Rattle.std.specs.Prelude.{◌≡◌, IsTrue};
ghost use Rattle.std.specs.Cmp.{IsEquivalence};
ghost use Rattle.wgsl_tree_expression.specs.declared.ident.Ident.{Ident};
ghost use Rattle.wgsl_tree_expression.specs.Equality.{equal_idents};
ghost use Rattle.wgsl_laws.specs.Hashes.{hashed_ident};

/// `==` of names is an equivalence, and names that are equal hash alike.
pub fn ident_equality()
    ensures equivalence { IsEquivalence equal_idents }
    ensures hash { (a b : Ident)
        → IsTrue (equal_idents a b) → hashed_ident a ≡ hashed_ident b }
{}
