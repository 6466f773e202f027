//! Laws of the grammar.

ghost use Rattle.std.specs.Prelude.{◌≡◌, ◌↔◌, true, false, List, [], ◌∷◌, ◌++◌};
ghost use Rattle.grammar.specs.Tokens.{Token, Fault};
ghost use Rattle.grammar.specs.Grammar.{Mode, Mode.checking, Derives, IsSentence};
ghost use Rattle.grammar.specs.Endings.{Ending, Ending.finished};
ghost use Rattle.grammar.specs.Faults.{FaultIn};
ghost use Rattle.grammar.specs.Reading.{read_all, Outcome.ok};
ghost use Rattle.wgsl_model.specs.Grammar.Symbols.{Dialect, Symbol, Symbol.unit, Value, is_read_alone};
ghost use Rattle.wgsl_model.specs.Grammar.Written.{rules, written};
ghost use Rattle.wgsl_model.specs.Grammar.Small.{small};
ghost use Rattle.wgsl_model.specs.Faults.NamedFault.{IsNamed, IsNamedSmall, IsNamedUnchecked, IsSyntaxFault};
ghost use Rattle.wgsl_model.specs.Faults.Checked.{IsCheckedFault, wants_memory};
ghost use Rattle.wgsl_theory_grammar.specs.Factored.{FactoredSymbol.of, body, small_body};
ghost use Rattle.wgsl_theory_grammar.specs.Tables.{tables, rank_limit};
ghost use Rattle.wgsl_theory_grammar.specs.Apart.{apart};
ghost use Rattle.wgsl_theory_grammar.specs.FewerAttributes.{fewer_attributes};
ghost use Rattle.wgsl_theory_grammar.specs.Answers.{opening, answer_of, IsAnswer, small_answer_of, IsSmallAnswer};

/// At most one tree is derived from a list of tokens, with checks and without.
pub fn one_tree()
    ensures whole { (M : Mode) (n : Symbol) (v w : Value n) (ts : List Token) →
        Derives M written n v ts → Derives M written n w ts → v ≡ w }
    ensures alone { (M : Mode) (n : Symbol) (v w : Value n) (ts : List Token) →
        Derives M small n v ts → Derives M small n w ts → v ≡ w }
{}

/// A sentence without a checked fault derives a tree with all checks, however its tokens ended.
pub fn checked_is_full()
    ensures { (n : Symbol) → is_read_alone n ≡ true → (ts : List Token) (ending : Ending) →
        IsSentence written n ts → ((x : Fault) (ys : List Token) →
        IsCheckedFault ts ending x ys → ⊥) → (v : Value n) × Derives checking written n v ts }
{}

/// No two checked faults have the same last token.
pub fn one_fault()
    ensures { (ts : List Token) (ending : Ending) (x y : Fault) (ys : List Token) →
        IsCheckedFault ts ending x ys → IsCheckedFault ts ending y ys → x ≡ y }
{}

/// The form in which one token decides derives the same trees as the written form.
pub fn same_trees()
    ensures whole { (M : Mode) (n : Symbol) (v : Value n) (ts : List Token) →
        Derives M written n v ts ↔ Derives M body (of n) v ts }
    ensures alone { (M : Mode) (n : Symbol) (v : Value n) (ts : List Token) →
        Derives M small n v ts ↔ Derives M small_body (of n) v ts }
{}

/// The reader takes exactly the lists that derive a tree.
pub fn exact_reading()
    ensures whole { (M : Mode) (n : Symbol) (v : Value n) (ts : List Token) →
        (read_all tables M body rank_limit (of n) ts ≡ ok v []) ↔ Derives M written n v ts }
    ensures alone { (M : Mode) (n : Symbol) (v : Value n) (ts : List Token) →
        (read_all tables M small_body rank_limit (of n) ts ≡ ok v []) ↔ Derives M small n v ts }
{}

/// The reader returns the tree where the tokens derive one and ended of themselves, and else the
/// fault that is named.
pub fn true_answers()
    ensures whole { (n : Symbol) (ts : List Token) (ending : Ending) →
        IsAnswer n ts ending (answer_of n ts ending) }
    ensures alone { (n : Symbol) (ts : List Token) (ending : Ending) →
        IsSmallAnswer n ts ending (small_answer_of n ts ending) }
{}

/// The checks of the form in which one token decides find the checked faults: of the tokens, or of
/// the tokens and a `(` where an allocation failed after them.
pub fn same_faults()
    ensures finished { (ts : List Token) (ending : Ending) → wants_memory ending ≡ false →
        (x : Fault) (ys : List Token) → FaultIn body apart ts x ys ↔ IsCheckedFault ts ending x ys }
    ensures in_want { (ts : List Token) (ending : Ending) →
        wants_memory ending ≡ true → (x : Fault) (ys : List Token) → FaultIn body apart
        (ts ++ (opening ∷ [])) x (ys ++ (opening ∷ [])) ↔ IsCheckedFault ts ending x ys }
{}

/// One fault alone is named, and none where the tokens derive a tree and ended of themselves; so
/// it is where nothing is checked.
pub fn one_name()
    ensures once { (n : Symbol) (ts : List Token) (ending : Ending) (x y : Fault) →
        IsNamed n ts ending x → IsNamed n ts ending y → x ≡ y }
    ensures no_tree { (n : Symbol) (ts : List Token) (x : Fault) →
        IsNamed n ts finished x → (v : Value n) → Derives checking written n v ts → ⊥ }
    ensures unchecked_once { (L : Dialect) (n : Symbol) (ts : List Token) (ending : Ending)
        (x y : Fault) → IsNamedUnchecked L n ts ending x → IsNamedUnchecked L n ts ending y → x ≡ y }
    ensures unchecked_no_sentence { (L : Dialect) (n : Symbol) (ts : List Token) (x : Fault) →
        IsNamedUnchecked L n ts finished x → IsSentence (rules L) n ts → ⊥ }
    ensures alone_no_tree { (n : Symbol) (ts : List Token) (x : Fault) →
        IsNamedSmall n ts finished x → (v : Value n) → Derives checking small n v ts → ⊥ }
{}

/// The fault that is named of a module's tokens where nothing is checked is the one that is named
/// with the checks too, unless one of these finds a fault.
pub fn syntax_fault()
    ensures { (ts : List Token) (ending : Ending) (x : Fault) → IsSyntaxFault ts ending x →
        ((y : Fault) (ys : List Token) → IsCheckedFault ts ending y ys → ⊥) →
        IsNamed unit ts ending x }
{}

/// What is derived with attributes in fewer places, the grammar derives: the same tree, whose lists
/// of attributes are empty in the other places.
pub fn no_less_derived()
    ensures { (M : Mode) (n : Symbol) (v : Value n) (ts : List Token) →
        Derives M fewer_attributes n v ts → Derives M written n v ts }
{}
