//! Laws of tokens with other names in their places.

ghost use Rattle.std.specs.Prelude.{◌≡◌, List, map};
ghost use Rattle.grammar.specs.Tokens.{Token};
ghost use Rattle.wgsl_model_places.specs.Steps.{events};
ghost use Rattle.wgsl_model_places.specs.Edited.{Edit, edited, edited_event, KeepsUnderscore, KeepsWords};

/// Where other names are written in the places of some, one for each place or not, the same happens
/// to the new names, if words and `_` stay: each is what it was, and scopes start and end where they
/// did.
pub fn edited_tokens()
    ensures { (g : Edit) (ts : List Token) → KeepsUnderscore g → KeepsWords g (events ts) →
        events (edited g ts) ≡ map (edited_event g) (events ts) }
{}
