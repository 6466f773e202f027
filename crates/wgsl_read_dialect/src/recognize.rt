//! Recognising a module.

ghost use Rattle.std.specs.Prelude.{◌≡◌, ◌⊎◌, false, chars, length, List, IfOk, IfErr};
ghost use Rattle.grammar.specs.Tokens.{Token};
ghost use Rattle.grammar.specs.Endings.{Ending};
ghost use Rattle.wgsl_model.specs.Faults.Checked.{wants_memory};
ghost use Rattle.wgsl_model_tidy.specs.Syntax.{IsModuleInSyntax, IsSyntaxFaultOf};
ghost use Rattle.wgsl_model.specs.Tokens.TokenList.{IsTokenList};
ghost use Rattle.wgsl_error.specs.View.{fault_view};
ghost use Rattle.wgsl_lexer.specs.TextTokens.{tokens_left, ending_left};
ghost use Rattle.wgsl_read_cursor.specs.Answers.{IsOutOfMemory};
ghost use Rattle.wgsl_read_cursor.specs.Origins.{IsSourceOf};
ghost use Rattle.wgsl_read_cursor.specs.Places.{StandsWithin};
ghost use Rattle.wgsl_read_dialect.specs.Dialects.{dialect_view};
ghost use Rattle.wgsl_read_dialect.specs.Recognized.{IsRecognized, IsRefused, Recognized};

use crate::accept::accept;
use crate::dialect::Dialect;
use crate::rules::{Symbol, right_side};
use std::alloc::Global;
use wgsl_error::Error;
use wgsl_lexer::TextTokens;
use wgsl_read_cursor::{Expected, TokenSource};

/// How many rules of the grammar at most are inside one another for each level.
const RULES: usize = 8;

/// Whether the tokens of a source are a module of a dialect.
#[tactic(auto, using(crate::proofs::Weights::rule_settled, crate::proofs::Recognized::unit_is))]
fn recognize_unit(alloc: Global, dialect: Dialect, source: TokenSource) -> Result<(), Error>
    ensures { (ts : List Token) (ending : Ending) → IsSourceOf source.entry ts ending →
        wants_memory ending ≡ false → Recognized (dialect_view dialect) result ts ending }
{
    let mut source = source;
    let read = accept(
        dialect,
        right_side(dialect, Symbol::Unit),
        &mut source.tokens,
    );
    source.answer(alloc, read, Expected::DECLARATION)
}

/// Checks whether a text is a module of the dialect: names are identifiers alone, after `@` too,
/// `--` is in no sum, and no attribute, `var` template or diagnostic is checked. Otherwise the
/// error is the first token that can't be where it is; else the text that is not a token; else that
/// the text ends too early. No tree is made.
pub fn recognize_str(alloc: Global, source: &str) -> Result<(), Error>
    ensures accepted { IfOk result (λ _. IsRecognized (chars source.now)) }
    ensures refused { IfErr result (λ e.
        IsOutOfMemory e ⊎ IsRefused (chars source.now) (fault_view e)) }
    ensures placed { IfErr result (λ e. StandsWithin e.span (length source.now)) }
{
    recognize_unit(
        alloc,
        Dialect::Recognized,
        TokenSource::of_text(alloc, source, usize::MAX)?,
    )
}

/// Checks whether a text with these tokens is a module, as `parse_str` reads them but without its
/// checks: a reserved word is a name, and attributes, `var` templates and severities may say
/// anything. Otherwise the error is the first token that can't be where it is; else the text that
/// is not a token; else that the text ends too early. No tree is made. Where brackets, blocks and
/// template lists nest deeper than a number of levels, the error is of the kind `OutOfMemory`: the
/// stack grows with the rules of the grammar that are inside one another, which are counted, so a
/// few more levels may be accepted.
pub fn check_syntax(
    alloc: Global,
    source: &str,
    tokens: TextTokens,
    depth: usize,
) -> Result<(), Error>
    requires { IsTokenList
        (chars source.now) (tokens_left tokens) (ending_left tokens) }
    ensures accepted { IfOk result (λ _. IsModuleInSyntax (chars source.now)) }
    ensures refused { IfErr result (λ e.
        IsOutOfMemory e ⊎ IsSyntaxFaultOf (chars source.now) (fault_view e)) }
    ensures placed { IfErr result (λ e. StandsWithin e.span (length source.now)) }
{
    let rules = depth.saturating_add(1).saturating_mul(RULES);
    let tokens = TokenSource::of_tokens(alloc, source, tokens, rules);
    recognize_unit(alloc, Dialect::Parsed, tokens)
}
