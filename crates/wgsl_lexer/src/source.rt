//! The tokens of a whole text, and whether it begins with a template list.

ghost use Rattle.std.specs.Prelude.{◌⊎◌, ◌↔◌, List, ◌++◌, chars, IfOk, IsTrue};
ghost use Rattle.grammar.specs.Tokens as grammar;
ghost use Rattle.grammar.specs.Endings.{Ending};
ghost use Rattle.wgsl_model.specs.Tokens.TokenList.{IsTokenList};
ghost use Rattle.wgsl_lexer.specs.Placed.{tokens_view, ending_view, IsOutOfMemory};
ghost use Rattle.wgsl_lexer.specs.Left.{BeginsWithList};

use crate::collect::{Collected, collect_tokens};
use crate::lexer::Lexer;
use std::alloc::{AllocError, Global};
use wgsl_lex_scanner::scan::{Scanned, place, scan};
use wgsl_lex_templates::discover;

/// Returns whether the text, after its trivia, begins with a template list.
pub fn recognize_template_list(alloc: Global, source: &str) -> Result<bool, AllocError>
    ensures { IfOk result (λ found. IsTrue found ↔ BeginsWithList (chars source.now)) }
{
    let Scanned::Found { from, .. } = scan(source) else {
        return Ok(false);
    };
    let templates = discover(alloc, source)?;
    Ok(templates.end_of(place(source.len(), from)).is_some())
}

/// Returns the tokens of a text and the fault that ends them, or where an allocation failed a
/// beginning of them.
pub fn lex(alloc: Global, source: &str) -> Result<Collected, AllocError>
    ensures all { IfOk result (λ found. IsTokenList (chars source.now)
        (tokens_view found) (ending_view found.error) ⊎ IsOutOfMemory found.error) }
    ensures beginning { IfOk result (λ found. (us : List grammar.Token) ×
        (e : Ending) × IsTokenList (chars source.now) (tokens_view found ++ us) e) }
{
    let lexer = Lexer::new(alloc, source)?;
    collect_tokens(alloc, lexer)
}
