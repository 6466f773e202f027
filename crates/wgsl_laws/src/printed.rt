//! Laws of texts and of the units that are derived from them.

ghost use Rattle.std.specs.Prelude.{◌≡◌, ◌⊎◌, ℕ, List, [], map, true, chars};
ghost use Rattle.std.specs.Str.{is_utf8};
ghost use Rattle.grammar.specs.Tokens.{Token, Fault};
ghost use Rattle.grammar.specs.Grammar.{Mode.checking, Derives};
ghost use Rattle.wgsl_model.specs.Trees.Units.{TranslationUnit};
ghost use Rattle.wgsl_model.specs.Grammar.Symbols as symbols;
ghost use Rattle.wgsl_model.specs.Grammar.Written.{written};
ghost use Rattle.wgsl_model.specs.Trees.EmptyItems.{full_unit};
ghost use Rattle.wgsl_model.specs.Trees.StatementsWithoutSpans.{bare_unit};
ghost use Rattle.wgsl_model.specs.Printed.Units.{print_unit};
ghost use Rattle.wgsl_model.specs.Program.{IsUnit, IsFaultOf, Formats, ReadsBack};
ghost use Rattle.wgsl_theory_reread.specs.CanonicalUnits.{canonical, without_place, HasTokens};

/// Every text is a unit or has a named fault, never both, and each only once.
pub fn unit_or_fault()
    ensures either { (source : List ℕ) → ((unit : TranslationUnit) × IsUnit source unit) ⊎
        ((fault : Fault) × IsFaultOf source fault) }
    ensures not_both { (source : List ℕ) (unit : TranslationUnit) (fault : Fault) →
        IsUnit source unit → IsFaultOf source fault → ⊥ }
    ensures one_unit { (source : List ℕ) (unit other : TranslationUnit) →
        IsUnit source unit → IsUnit source other → unit ≡ other }
    ensures one_fault { (source : List ℕ) (fault other : Fault) →
        IsFaultOf source fault → IsFaultOf source other → fault ≡ other }
{}

/// The printed text of a derived unit is a text, and reads as that unit without its empty items,
/// ignoring spans.
pub fn printed_parse()
    ensures utf8 { (source : List ℕ) (unit : TranslationUnit) →
        IsUnit source unit → is_utf8 (print_unit unit) ≡ true }
    ensures reads_back { (source : List ℕ) (unit : TranslationUnit) →
        IsUnit source unit → ReadsBack (print_unit unit) unit }
{}

/// The tokens of the printed text of a derived unit are those that are written from its tree, so no
/// two of its words or signs run together.
pub fn printed_tokens()
    ensures { (source : List ℕ) (unit : TranslationUnit) →
        IsUnit source unit → HasTokens (print_unit unit) (canonical unit) }
{}

/// Printing what the printed text of a derived unit reads as gives the same bytes, so the program
/// writes what it wrote as it is.
pub fn print_twice()
    ensures unit { (source : List ℕ) (unit again : TranslationUnit) → IsUnit source unit →
        IsUnit (chars (print_unit unit)) again → print_unit again ≡ print_unit unit }
    ensures program { (source : List ℕ) (unit : TranslationUnit) → IsUnit source unit →
        Formats (print_unit unit) (record { status = 0; output = print_unit unit; errors = [] }) }
{}

/// Tokens with the kinds that are written from the tree of a derived module, wherever they are,
/// derive that module without its empty items, ignoring spans.
pub fn canonical_parse()
    ensures { (source : List ℕ) (unit : TranslationUnit) →
        IsUnit source unit → (ts : List Token) → map without_place ts ≡ canonical unit →
        (again : TranslationUnit) × Derives checking written symbols.unit again ts ×
        (bare_unit again ≡ bare_unit (full_unit unit)) }
{}
