//! The `<` of a source that were tried.

ghost use Rattle.std.specs.Prelude.{◌≡◌, ◌<◌, ◌+◌, ◌^◌, ℕ, List, [], ◌++◌, true, take, IfOk};
ghost use Rattle.wgsl_lex_templates.specs.Findings.{begun_list, greater_place, IsRight, AreRight};
ghost use Rattle.wgsl_lex_templates.specs.Spans.{is_before_all};

use crate::findings::{Finding, Findings};
use crate::kept::ReadKinds;
use crate::lists::Lists;
use std::alloc::{AllocError, Global};
use wgsl_span::Span;

/// A number of tokens are no longer few.
const FEW_TOKENS: u128 = 10;

/// The lists that were found, and what was found of each `<` whose attempt read more than a few tokens.
#[derive(Drop)]
pub(crate) struct Tried {
    pub(crate) lists: Lists,
    pub(crate) findings: Findings,
}

impl Tried {
    pub(crate) fn new(alloc: Global) -> Tried
        ensures lists { result.lists.spans.items ≡ [] }
        ensures findings { result.findings.entries.items ≡ [] }
    {
        Tried {
            lists: Lists::new(alloc),
            findings: Findings::new(alloc),
        }
    }

    /// Adds what was found of a `<` before all others.
    /// The pieces from a place on are of what its attempt read. Where it read few tokens, they and
    /// the finding are forgotten, since they are read again as fast; where no list is around the
    /// `<`, no later piece is a stretch of them.
    pub(crate) fn add(
        &mut self,
        kept: &mut ReadKinds,
        read: usize,
        tokens: u128,
        start: usize,
        finding: Finding,
    ) -> Result<(), AllocError>
        requires first { is_before_all start self.old.lists.spans.items ≡ true }
        requires fits { greater_place finding + 1 < 2 ^ 64 }
        ensures lists { IfOk result (λ _.
            self.new.lists.spans.items ≡ self.old.lists.spans.items ++ begun_list start finding) }
        ensures right { (total : ℕ) (source : List ℕ) → AreRight total source
            (take read kept.old.pieces.items) self.old.findings.entries.items →
            IsRight total source kept.old.pieces.items
            (record { start = start; finding = finding }) → IfOk result (λ _.
            AreRight total source kept.new.pieces.items self.new.findings.entries.items) }
    {
        let are_few = tokens < FEW_TOKENS;
        let Finding::GoesOn { is_list, place, .. } = finding else {
            kept.truncate(read);
            if are_few {
                return Ok(());
            }
            self.findings.add(start, finding)?;
            return Ok(());
        };
        if is_list {
            let end = place + 1;
            self.lists.add(Span { start, end })?;
        }
        if are_few {
            kept.truncate(read);
            return Ok(());
        }
        self.findings.add(start, finding)?;
        Ok(())
    }
}
