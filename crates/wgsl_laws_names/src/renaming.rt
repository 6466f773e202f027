//! Laws of renaming.

ghost use Rattle.std.specs.Prelude.{◌≡◌, ℕ, List, map, true};
ghost use Rattle.std.specs.List.{Contains};
ghost use Rattle.std.specs.Str.{is_utf8};
ghost use Rattle.grammar.specs.Tokens.{Token};
ghost use Rattle.grammar.specs.Grammar.{Mode.checking, Derives};
ghost use Rattle.wgsl_model.specs.Trees.Units.{TranslationUnit};
ghost use Rattle.wgsl_model.specs.Trees.EmptyItems.{full_unit};
ghost use Rattle.wgsl_model.specs.Trees.StatementsWithoutSpans.{bare_unit};
ghost use Rattle.wgsl_model.specs.Grammar.Symbols as symbols;
ghost use Rattle.wgsl_model.specs.Grammar.Written.{written};
ghost use Rattle.wgsl_model.specs.Printed.Units.{print_unit};
ghost use Rattle.wgsl_model.specs.Program.{IsUnit, ReadsBack};
ghost use Rattle.wgsl_theory_reread.specs.CanonicalUnits.{canonical, without_place, HasTokens};
ghost use Rattle.wgsl_model_names.specs.Scopes.{spelled, unknown_names};
ghost use Rattle.wgsl_model_names.specs.Names.{unit_names, unit_referents};
ghost use Rattle.wgsl_model_names.specs.Renamed.{Renaming, renamed_unit};
ghost use Rattle.wgsl_model_names.specs.RenamedTokens.{AreRenamedTokens, FixesUnderscore, GivesIdentifiers};
ghost use Rattle.wgsl_model_names.specs.Renaming.{FixesAll, FixesOutside, FixesWords, IsRenamingOf, renamed_referents};

/// Each use of a module may refer to the declarations that it might refer to before, after a
/// renaming that gives no two names of the module one name; what is outside is referred to by its
/// new name, so it is the same where it keeps its name.
pub fn renaming_keeps_referents()
    ensures renamed { (unit : TranslationUnit) (f : Renaming) → IsRenamingOf unit f →
        unit_referents (renamed_unit f unit) ≡ renamed_referents f (unit_referents unit) }
    ensures same { (unit : TranslationUnit) (f : Renaming) → IsRenamingOf unit f →
        FixesOutside (unit_referents unit) f →
        unit_referents (renamed_unit f unit) ≡ unit_referents unit }
{}

/// The names of a renamed module are those of the module, renamed, if those stay of which it is not
/// known what they refer to.
pub fn renamed_names_are_renamed()
    ensures { (unit : TranslationUnit) (f : Renaming) → FixesWords f →
        FixesAll (unknown_names (unit_names unit)) f →
        spelled (unit_names (renamed_unit f unit)) ≡ map f (spelled (unit_names unit)) }
{}

/// Renaming the names back gives the module, so nothing but names was changed, and no name was lost.
pub fn renaming_is_undone()
    ensures { (unit : TranslationUnit) (f g : Renaming) →
        ((name : List ℕ) → Contains (spelled (unit_names unit)) name → g (f name) ≡ name) →
        renamed_unit g (renamed_unit f unit) ≡ unit }
{}

/// The tokens of a module, some of its identifiers renamed where they are, derive the renamed
/// module.
pub fn renamed_tokens_derive()
    ensures { (f : Renaming) → FixesUnderscore f → (unit : TranslationUnit) (ts : List Token) →
        Derives checking written symbols.unit unit ts →
        (us : List Token) × AreRenamedTokens f ts us ×
        Derives checking written symbols.unit (renamed_unit f unit) us }
{}

/// Tokens with the kinds that are written from the tree of a renamed module, wherever they are,
/// derive that module without its empty items, ignoring spans.
pub fn renamed_canonical_parse()
    ensures { (source : List ℕ) (unit : TranslationUnit) → IsUnit source unit →
        (f : Renaming) → FixesUnderscore f → GivesIdentifiers f →
        (ts : List Token) → map without_place ts ≡ canonical (renamed_unit f unit) →
        (again : TranslationUnit) × Derives checking written symbols.unit again ts ×
        (bare_unit again ≡ bare_unit (full_unit (renamed_unit f unit))) }
{}

/// A renamed module is the module of some text, ignoring spans.
pub fn renamed_is_a_module()
    ensures { (source : List ℕ) (unit : TranslationUnit) → IsUnit source unit →
        (f : Renaming) → FixesUnderscore f → GivesIdentifiers f →
        (text : List ℕ) × (other : TranslationUnit) × IsUnit text other ×
        (bare_unit other ≡ bare_unit (renamed_unit f unit)) }
{}

/// The printed text of a renamed module is a text, has the tokens that are written from its tree,
/// and reads as the renamed module without its empty items, ignoring spans.
pub fn renamed_printed_parse()
    ensures utf8 { (source : List ℕ) (unit : TranslationUnit) → IsUnit source unit →
        (f : Renaming) → FixesUnderscore f → GivesIdentifiers f →
        is_utf8 (print_unit (renamed_unit f unit)) ≡ true }
    ensures tokens { (source : List ℕ) (unit : TranslationUnit) → IsUnit source unit →
        (f : Renaming) → FixesUnderscore f → GivesIdentifiers f →
        HasTokens (print_unit (renamed_unit f unit)) (canonical (renamed_unit f unit)) }
    ensures reads_back { (source : List ℕ) (unit : TranslationUnit) → IsUnit source unit →
        (f : Renaming) → FixesUnderscore f → GivesIdentifiers f →
        ReadsBack (print_unit (renamed_unit f unit)) (renamed_unit f unit) }
{}
