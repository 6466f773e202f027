//! The tokens after a `<`, up to where it shows whether a list could begin at it.

ghost use Rattle.std.specs.Prelude.{◌≡◌, ◌+◌, ◌<◌, ◌≤◌, ◌^◌, ⊤, ℕ, List, [], ◌∷◌, ◌++◌, chars, length, IfOk, MatchOption};
ghost use Rattle.wgsl_model.specs.Tokens.ClassTable.{SymLessThan};
ghost use Rattle.wgsl_model.specs.Tokens.Raw.{raw};
ghost use Rattle.wgsl_lex_token.specs.View.{class_of_kind};
ghost use Rattle.wgsl_lex_scanner.specs.View.{scanned_view, IsShorter};
ghost use Rattle.wgsl_theory_grammar.proofs.Tokens.Cuts.{EndsWith};
ghost use Rattle.wgsl_lex_token.specs.declared.kind_table.TokenKind.TheVariants.{TemplateArgsStart, TemplateArgsEnd, Ident};
ghost use Rattle.wgsl_lex_templates.specs.declared.kept.Piece.{Piece};
ghost use Rattle.wgsl_lex_templates.specs.declared.kept.Piece.TheVariants.{Token};
ghost use Rattle.wgsl_lex_comments.specs.Comments.{AreComments};
ghost use Rattle.wgsl_lex_templates.specs.Lists.{TellLists};
ghost use Rattle.wgsl_lex_templates.specs.TemplateEnds.{SkipsList, SkipsAfter};
ghost use Rattle.wgsl_lex_templates.specs.Kept.{BeginWith};
ghost use Rattle.wgsl_lex_templates.specs.Findings.{AreRight};
ghost use Rattle.wgsl_lex_templates.specs.Readings.{IsReading, IsMet};

use crate::findings::{Finding, Findings};
use crate::kept::ReadKinds;
use crate::lists::Lists;
use crate::roles::{Turn, ends_with_less_than, is_less_than, is_word, turn_of};
use crate::tried::Tried;
use std::alloc::AllocError;
use wgsl_lex_comments::Comments;
use wgsl_lex_scanner::scan::{Scanned, place, scan};
use wgsl_lex_token::kind::TokenKind;

/// What the tokens after a `<` show.
pub(crate) enum Reading<'s> {
    /// The `>` at the front of the text would end the list.
    Ends(&'s str),
    /// There is no list, and none around it.
    Around,
    /// There is no list; one in whose brackets the `<` is goes on at the text.
    Within(&'s str),
}

/// Takes the token at the front of a text, which ends the source: one read.
pub(crate) fn take<'s>(
    comments: &mut Comments,
    reads: &mut u128,
    source: &'s str,
    text: &'s str,
) -> Result<Scanned<'s>, AllocError>
    requires ends { EndsWith (chars source.now) (chars text.now) }
    requires reads { reads.old + 1 < 2 ^ 128 }
    requires known { AreComments (chars source.now) comments.old.found.items }
    ensures value { IfOk result (λ scanned. scanned_view scanned ≡ raw (chars text.now)) }
    ensures shorter { IfOk result (λ scanned. IsShorter (length text.now) scanned) }
    ensures known { IfOk result (λ _. AreComments (chars source.now) comments.new.found.items) }
    ensures reads { reads.new ≡ reads.old + 1 }
{
    *reads += 1;
    let rest = comments.skip_trivia(source, text)?;
    Ok(scan(rest))
}

/// The text after the known list that begins the text.
fn after_list<'s>(lists: &Lists, total: usize, text: &'s str) -> Option<&'s str>
    requires fits { length text.now ≤ total }
    requires first { (following : List ℕ) × (chars text.now ≡ 60 ∷ following) }
    requires lists { TellLists total lists.now.spans.items (chars text.now) }
    ensures value { SkipsList total (chars text.now) result }
    ensures shorter { MatchOption result ⊤ (λ rest. length rest.now < length text.now) }
{
    let start = place(total, text);
    let end = lists.end_of(start)?;
    text.get(end - start..)
}

/// The same where a token of a kind begins the text, which begins a list only if it is a `<` after
/// a word.
fn list_after<'s>(
    lists: &Lists,
    total: usize,
    after_word: bool,
    kind: TokenKind,
    text: &'s str,
) -> Option<&'s str>
    requires fits { length text.now ≤ total }
    requires first { class_of_kind kind ≡ SymLessThan →
        (following : List ℕ) × (chars text.now ≡ 60 ∷ following) }
    requires lists { TellLists total lists.now.spans.items (chars text.now) }
    ensures value { SkipsAfter after_word (class_of_kind kind) total (chars text.now) result }
    ensures shorter { MatchOption result ⊤ (λ rest. length rest.now < length text.now) }
{
    if after_word && is_less_than(kind) {
        return after_list(lists, total, text);
    }
    None
}

/// Puts the kinds of a list of one name after the others: they replace those of any other list.
fn push_list(kept: &mut ReadKinds) -> Result<(), AllocError>
    ensures { IfOk result (λ _. kept.new.pieces.items ≡ ((kept.old.pieces.items
        ++ Token TemplateArgsStart ∷ []) ++ Token Ident ∷ []) ++ Token TemplateArgsEnd ∷ []) }
{
    kept.push(TokenKind::TemplateArgsStart)?;
    kept.push(TokenKind::Ident)?;
    kept.push(TokenKind::TemplateArgsEnd)?;
    Ok(())
}

/// What is known of a token.
enum Met<'s> {
    /// It ends with a `<`, at which no list begins, and none is around the token.
    Around,
    /// It ends with a `<`, which begins a list or none. A list around the token goes on at the
    /// rest, after the stretch; where the `<` begins none, one in whose brackets it is.
    GoesOn {
        is_list: bool,
        rest: &'s str,
        start: usize,
        end: usize,
    },
    Nothing,
}

/// What was found before of the `<` that a token of a kind ends with, which is before a text.
fn look_up<'s>(findings: &Findings, source: &'s str, kind: TokenKind, after: &'s str) -> Met<'s>
    requires ends { EndsWith (chars source.now) (chars after.now) }
    requires shorter { length after.now < length source.now }
    ensures { (pieces : List Piece) →
        AreRight (length source.now) (chars source.now) pieces findings.now.entries.items →
        IsMet (length source.now) pieces (class_of_kind kind) (chars after.now) result }
{
    if !ends_with_less_than(kind) {
        return Met::Nothing;
    }
    match findings.at(place(source.len(), after) - 1) {
        Some(Finding::Around) => Met::Around,
        Some(
            Finding::GoesOn {
                is_list,
                place,
                start,
                end,
            },
        ) => match source.get(place..) {
            Some(rest) => Met::GoesOn {
                is_list,
                rest,
                start,
                end,
            },
            None => Met::Nothing,
        },
        None => Met::Nothing,
    }
}

/// Reads what is after a `<`, which is before the text. What was read becomes pieces after the
/// others.
pub(crate) fn read<'s>(
    tried: &Tried,
    comments: &mut Comments,
    kept: &mut ReadKinds,
    reads: &mut u128,
    source: &'s str,
    text: &'s str,
) -> Result<Reading<'s>, AllocError>
    requires ends { EndsWith (chars source.now) (chars text.now) }
    requires reads { reads.old + length text.now + 1 < 2 ^ 128 }
    requires lists { TellLists (length source.now) tried.now.lists.spans.items (chars text.now) }
    requires known { AreComments (chars source.now) comments.old.found.items }
    requires right { AreRight (length source.now)
        (chars source.now) kept.old.pieces.items tried.now.findings.entries.items }
    ensures value { IfOk result (λ reading. IsReading (length source.now)
        (chars text.now) kept.new.pieces.items (length kept.old.pieces.items) reading) }
    ensures known { IfOk result (λ _. AreComments (chars source.now) comments.new.found.items) }
    ensures more { IfOk result (λ _. BeginWith kept.old.pieces.items kept.new.pieces.items) }
    ensures some { reads.old < reads.new }
    ensures few { reads.new ≤ reads.old + length text.now + 1 }
{
    let total = source.len();
    let mut rest = text;
    let mut depth = 0usize;
    let mut after_word = false;
    'tokens: while let Scanned::Found {
        lexeme,
        from,
        after,
    } = take(comments, reads, source, rest)?
    {
        let kind = lexeme.kind();
        if let Some(following) = list_after(&tried.lists, total, after_word, kind, from) {
            push_list(kept)?;
            rest = following;
            after_word = false;
            continue;
        }
        match look_up(&tried.findings, source, kind, after) {
            Met::Around => return Ok(Reading::Around),
            Met::GoesOn {
                is_list,
                rest: following,
                start,
                end,
            } => {
                kept.push(kind)?;
                kept.push_stretch(start, end)?;
                if depth == 0 && !is_list {
                    return Ok(Reading::Within(following));
                }
                rest = following;
                after_word = false;
                continue;
            }
            Met::Nothing => {}
        }
        match turn_of(depth, kind) {
            Turn::Ends => return Ok(Reading::Ends(from)),
            Turn::Stops => return Ok(Reading::Within(rest)),
            Turn::Refutes => return Ok(Reading::Around),
            Turn::Takes(open) => depth = open,
        }
        kept.push(kind)?;
        after_word = is_word(kind);
        rest = after;
    }
    Ok(Reading::Around)
}
