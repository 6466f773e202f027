//! Modules and what their uses refer to, computed from the definitions.

ghost use Rattle.std.specs.Prelude.{◌≡◌, map};
ghost use Rattle.wgsl_laws_places.specs.PlaceRows.{alternatives, given, refers, rows};

/// Each use of these modules may refer to what is given with it.
pub fn referents()
    ensures rows { map refers rows ≡ map given rows }
    ensures alternatives { map refers alternatives ≡ map given alternatives }
{}
