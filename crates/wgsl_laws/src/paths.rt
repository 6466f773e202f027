//! Laws of paths: each is the contract of a function that takes nothing and does nothing.

ghost use Rattle.std.specs.Prelude.{◌≡◌, ◌↔◌, ℕ, List, Ok, IsTrue};
ghost use Rattle.std.specs.Cmp.{IsEquivalence};
ghost use Rattle.wgsl_model.specs.Trees.Paths as plain;
ghost use Rattle.wgsl_tree_path.specs.declared.path.PathOrigin.{PathOrigin};
ghost use Rattle.wgsl_tree_path.specs.declared.path.ModulePath.{ModulePath};
ghost use Rattle.wgsl_tree_path.specs.View.{origin_view, path_view};
ghost use Rattle.wgsl_tree_path.specs.Equality.{equal_origins, equal_paths, hashed_origin, hashed_path};

/// A text that reads as a path is the text of that path.
#[tactic(auto, using(wgsl_tree_path::proofs::TextLaws::text_read))]
pub fn path_text()
    ensures { (text : List ℕ) (path : plain.ModulePath)
        → plain.read_path text ≡ Ok path → plain.path_text path ≡ text }
{}

/// Joining is associative, and the path `self` changes nothing on either side, whatever the levels,
/// so also where all of them, given or formed, fit a `usize`.
#[tactic(auto, using(crate::proofs::Hints::joins))]
pub fn join_laws()
    ensures associative { (first second third : plain.ModulePath)
        → plain.join_paths (plain.join_paths first second) third
        ≡ plain.join_paths first (plain.join_paths second third) }
    ensures self_first { (path : plain.ModulePath)
        → plain.join_paths plain.self_path path ≡ path }
    ensures self_last { (path : plain.ModulePath)
        → plain.join_paths path plain.self_path ≡ path }
{}

/// Starting with a path is reflexive and transitive, and a path with more components at its end
/// starts with that path.
pub fn starts_with_laws()
    ensures reflexive { (path : plain.ModulePath) → plain.StartsWith path path }
    ensures transitive { (path middle start : plain.ModulePath)
        → plain.StartsWith path middle → plain.StartsWith middle start
        → plain.StartsWith path start }
    ensures extended { (path : plain.ModulePath) (names : List (List ℕ))
        → plain.StartsWith (plain.extended path names) path }
{}

/// `==` of origins is an equivalence. Two are equal where they are one as plain data, and then hash
/// alike.
pub fn origin_equality()
    ensures equivalence { IsEquivalence equal_origins }
    ensures equal { (a b : PathOrigin)
        → IsTrue (equal_origins a b) ↔ (origin_view a ≡ origin_view b) }
    ensures hash { (a b : PathOrigin)
        → IsTrue (equal_origins a b) → hashed_origin a ≡ hashed_origin b }
{}

/// `==` of paths is an equivalence. Two are equal where they are one as plain data, and then hash
/// alike.
pub fn path_equality()
    ensures equivalence { IsEquivalence equal_paths }
    ensures equal { (a b : ModulePath) → IsTrue (equal_paths a b) ↔ (path_view a ≡ path_view b) }
    ensures hash { (a b : ModulePath)
        → IsTrue (equal_paths a b) → hashed_path a ≡ hashed_path b }
{}
