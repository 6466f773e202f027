//! Laws of the definitions.

ghost use Rattle.std.specs.Prelude.{ℕ, Bool, List};
ghost use Rattle.wgsl_model.specs.Tokens.Pattern.{after_longest, FollowsLongest};

/// What a text is cut at follows the longest front that passes a test; where it is not cut, no
/// front passes.
#[tactic(auto, using(wgsl_model::proofs::Tokens::Fronts::after_longest_is))]
pub fn longest_spelling()
    ensures { (test : List ℕ → Bool) (text : List ℕ) →
        FollowsLongest test text (after_longest test text) }
{}
