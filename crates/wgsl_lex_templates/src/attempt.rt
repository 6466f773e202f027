//! One try at a `<`: whether a template list begins there, where what is after it is known.

ghost use Rattle.std.specs.Prelude.{◌≡◌, ◌↔◌, ◌+◌, ◌<◌, ◌≤◌, ◌^◌, List, chars, take, drop, length, IfOk, IsTrue};
ghost use Rattle.grammar.specs.Tokens.{Token};
ghost use Rattle.wgsl_theory_grammar.proofs.Tokens.Cuts.{EndsWith};
ghost use Rattle.wgsl_lex_token.specs.View.{classes};
ghost use Rattle.wgsl_lex_templates.specs.ExpressionLists.{classes_of, IsExpressionList};
ghost use Rattle.wgsl_lex_comments.specs.Comments.{AreComments};
ghost use Rattle.wgsl_lex_templates.specs.Kept.{BeginWith, held};
ghost use Rattle.wgsl_lex_templates.specs.Lists.{TellLists};
ghost use Rattle.wgsl_lex_templates.specs.Findings.{AreRight};
ghost use Rattle.wgsl_lex_templates.specs.Shortened.{MayReplace};
ghost use Rattle.wgsl_lex_templates.specs.Readings.{IsOutcome, costs};

use crate::brackets::OpenBrackets;
use crate::expression_list::is_expression_list;
use crate::findings::Finding;
use crate::kept::{ReadKinds, Rest};
use crate::reading::{Reading, read, take};
use crate::roles::is_less_than;
use crate::shortened::shorten;
use crate::tried::Tried;
use std::alloc::{AllocError, Global};
use wgsl_lex_comments::Comments;
use wgsl_lex_scanner::scan::{Scanned, place};
use wgsl_lex_token::kind::TokenKind;

/// A number of kinds are no longer few. Fewer are not shortened.
const FEW_KINDS: usize = 8;

/// Space for the kinds of one list, used again at each.
#[derive(Drop)]
pub(crate) struct Scratch {
    kinds: Vec<TokenKind>,
    short: Vec<TokenKind>,
    rests: Vec<Rest>,
    opened: OpenBrackets,
}

impl Scratch {
    pub(crate) fn new(alloc: Global) -> Scratch {
        Scratch {
            kinds: Vec::new(alloc),
            short: Vec::new(alloc),
            rests: Vec::new(alloc),
            opened: OpenBrackets::new(alloc),
        }
    }
}

/// Whether the kinds of what was read from a place on are a list of expressions. They are left in
/// the space.
fn is_list(kept: &ReadKinds, start: usize, scratch: &mut Scratch) -> Result<bool, AllocError>
    ensures value { IfOk result (λ list. (ts : List Token) →
        classes_of ts ≡ held kept.now.pieces.items start (length kept.now.pieces.items) →
        IsTrue list ↔ IsExpressionList ts) }
    ensures kinds { IfOk result (λ _. classes scratch.new.kinds.items
        ≡ held kept.now.pieces.items start (length kept.now.pieces.items)) }
{
    scratch.kinds.clear();
    kept.push_kinds(start, kept.len(), &mut scratch.kinds, &mut scratch.rests)?;
    let found = is_expression_list(&scratch.kinds, &mut scratch.opened)?;
    Ok(found)
}

/// Keeps what was read from a place on in a shorter form, so that the tests of the lists around it
/// do not go over all of it again, if that takes fewer pieces. Its kinds are in the space.
fn keep_short(kept: &mut ReadKinds, start: usize, scratch: &mut Scratch) -> Result<(), AllocError>
    requires within { start ≤ length kept.old.pieces.items }
    requires kinds { classes scratch.old.kinds.items
        ≡ held kept.old.pieces.items start (length kept.old.pieces.items) }
    ensures more { IfOk result (λ _.
        BeginWith (take start kept.old.pieces.items) kept.new.pieces.items) }
    ensures short { IfOk result (λ _. MayReplace
        (held kept.new.pieces.items start (length kept.new.pieces.items))
        (held kept.old.pieces.items start (length kept.old.pieces.items))) }
{
    if scratch.kinds.len() < FEW_KINDS {
        return Ok(());
    }
    let pieces = kept.len() - start;
    if !shorten(
        &scratch.kinds,
        pieces,
        &mut scratch.short,
        &mut scratch.opened,
    )? {
        return Ok(());
    }
    kept.truncate(start);
    kept.push_all(&scratch.short)?;
    Ok(())
}

/// Tries the `<` at the front of a text that ends the source: nothing is found where `<` is not its first token.
pub(crate) fn attempt(
    tried: &Tried,
    comments: &mut Comments,
    kept: &mut ReadKinds,
    scratch: &mut Scratch,
    reads: &mut u128,
    source: &str,
    text: &str,
) -> Result<Option<Finding>, AllocError>
    requires ends { EndsWith (chars source.now) (chars text.now) }
    requires reads { reads.old + length text.now + 1 < 2 ^ 128 }
    requires lists { TellLists
        (length source.now) tried.now.lists.spans.items (drop 1 (chars text.now)) }
    requires known { AreComments (chars source.now) comments.old.found.items }
    requires right { AreRight (length source.now)
        (chars source.now) kept.old.pieces.items tried.now.findings.entries.items }
    ensures value { IfOk result (λ found.
        IsOutcome (length source.now) (chars text.now) kept.new.pieces.items found) }
    ensures more { IfOk result (λ _. BeginWith kept.old.pieces.items kept.new.pieces.items) }
    ensures known { IfOk result (λ _. AreComments (chars source.now) comments.new.found.items) }
    ensures some { IfOk result (λ found. reads.old + costs found ≤ reads.new) }
    ensures few { reads.new ≤ reads.old + length text.now + 1 }
{
    let Scanned::Found { lexeme, after, .. } = take(comments, reads, source, text)? else {
        return Ok(None);
    };
    if !is_less_than(lexeme.kind()) {
        return Ok(None);
    }
    let start = kept.len();
    match read(tried, comments, kept, reads, source, after)? {
        Reading::Around => Ok(Some(Finding::Around)),
        Reading::Within(rest) => Ok(Some(Finding::GoesOn {
            is_list: false,
            place: place(source.len(), rest),
            start,
            end: kept.len(),
        })),
        Reading::Ends(greater) => {
            if !is_list(kept, start, scratch)? {
                return Ok(Some(Finding::Around));
            }
            keep_short(kept, start, scratch)?;
            Ok(Some(Finding::GoesOn {
                is_list: true,
                place: place(source.len(), greater),
                start,
                end: kept.len(),
            }))
        }
    }
}
