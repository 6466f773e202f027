//! What holds of the token list of every text, and of every lexer.

ghost use Rattle.std.specs.Prelude.{◌≡◌, ◌↔◌, ℕ, List, Option, None};
ghost use Rattle.grammar.specs.Tokens.{Token};
ghost use Rattle.grammar.specs.Endings.{Ending};
ghost use Rattle.wgsl_model.specs.Tokens.Templates.{Enclosed, Template};
ghost use Rattle.wgsl_model.specs.Tokens.TokenList.{IsTokenList, width};
ghost use Rattle.wgsl_lexer.specs.declared.lexer.Lexer.{Lexer};
ghost use Rattle.wgsl_lexer.specs.Given.{TokenItem};
ghost use Rattle.wgsl_lexer.specs.Left.{HasEnded, IsLeft, GivesItem};
ghost use Rattle.wgsl_lexer.specs.InOrder.{AreInOrder, IsFaultAfter};

/// Every text has a token list, and only one.
#[tactic(auto, using(crate::proofs::Hints::token_lists))]
pub fn one_token_list()
    ensures exists { (source : List ℕ) →
        (ts : List Token) × (e : Ending) × IsTokenList source ts e }
    ensures one { (source : List ℕ) (ts us : List Token) (e f : Ending) →
        IsTokenList source ts e → IsTokenList source us f → (ts ≡ us) × (e ≡ f) }
{}

/// A template list is `<`, what is inside with the lists in it, and a `>`: the bound by which
/// the definition goes down leaves none out.
#[tactic(auto, using(wgsl_theory_grammar::proofs::Tokens::Bounds::template_is))]
pub fn lists_within_lists()
    ensures { (total : ℕ) (text : List ℕ) (ts : List Token) (rest : List ℕ) →
        Template total text ts rest ↔ Enclosed total (Template total) text ts rest }
{}

/// No token is empty, they are in order and in the text, and so is the invalid token that ends
/// them.
#[tactic(auto, using(crate::proofs::Hints::token_order))]
pub fn tokens_in_order()
    ensures tokens { (source : List ℕ) (ts : List Token) (e : Ending) →
        IsTokenList source ts e → AreInOrder 0 ts (width source) }
    ensures fault { (source : List ℕ) (ts : List Token) (e : Ending) →
        IsTokenList source ts e → IsFaultAfter ts e (width source) }
{}

/// Each lexer has one list of tokens left, and one way in which they end.
pub fn one_list_left()
    ensures exists { (lexer : Lexer) → (ts : List Token) × (e : Ending) × IsLeft lexer ts e }
    ensures one { (lexer : Lexer) (ts us : List Token) (e f : Ending) →
        IsLeft lexer ts e → IsLeft lexer us f → (ts ≡ us) × (e ≡ f) }
{}

/// After a fault, and after the last token, each call of `next` gives nothing.
#[tactic(auto, using(wgsl_lexer::proofs::Lefts::ended_gives))]
pub fn nothing_after_the_end()
    ensures { (old : Lexer) (item : Option TokenItem) (new : Lexer) →
        HasEnded old → GivesItem old item new → (item ≡ None) × HasEnded new }
{}
