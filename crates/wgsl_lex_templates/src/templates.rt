//! The template lists of a text.

ghost use Rattle.std.specs.Prelude.{◌≡◌, ◌≤◌, ◌+◌, ◌*◌, chars, length, IfOk};
ghost use Rattle.wgsl_model.specs.Tokens.Places.{width};
ghost use Rattle.wgsl_lex_templates.specs.Spans.{end_from};
ghost use Rattle.wgsl_lex_templates.specs.Lists.{AreLists, less_than_signs};

use crate::attempt::{Scratch, attempt};
use crate::kept::ReadKinds;
use crate::lists::Lists;
use crate::tried::Tried;
use std::alloc::{AllocError, Global};
use wgsl_lex_comments::Comments;

/// The template lists of a text, and what it took to find them. Places are byte offsets; a start is
/// inclusive, an end exclusive.
#[derive(Debug, PartialEq, Drop)]
pub struct Templates {
    lists: Lists,
    attempts: usize,
    reads: u128,
}

impl Templates {
    /// Returns a copy, unless allocation fails.
    pub fn clone(&self, alloc: Global) -> Result<Self, AllocError>
        ensures lists { IfOk result (λ copy. copy.lists.spans.items ≡ self.now.lists.spans.items) }
        ensures attempts { IfOk result (λ copy. copy.attempts ≡ self.now.attempts) }
        ensures reads { IfOk result (λ copy. copy.reads ≡ self.now.reads) }
    {
        let lists = self.lists.clone(alloc)?;
        Ok(Templates {
            lists,
            attempts: self.attempts,
            reads: self.reads,
        })
    }

    /// Returns where the text begins that is after the template list whose `<` is at the place.
    pub fn end_of(&self, place: usize) -> Option<usize>
        ensures { result ≡ end_from self.now.lists.spans.items place }
    {
        self.lists.end_of(place)
    }

    /// Returns at how many `<` characters a list was looked for.
    pub fn attempts(&self) -> usize
        ensures { result ≡ self.now.attempts }
    {
        self.attempts
    }

    /// Returns how many tokens the scanner took for these attempts.
    pub fn reads(&self) -> u128
        ensures { result ≡ self.now.reads }
    {
        self.reads
    }
}

/// Finds the template lists of a text, trying its `<` characters from the last to the first.
pub fn discover(alloc: Global, source: &str) -> Result<Templates, AllocError>
    ensures lists { IfOk result (λ found.
        AreLists (width (chars source.now)) found.lists.spans.items (chars source.now)) }
    ensures attempts { IfOk result (λ found. found.attempts ≤ less_than_signs (chars source.now)) }
    ensures found { IfOk result (λ found. length found.lists.spans.items ≤ found.attempts) }
    ensures reads { IfOk result (λ found. found.reads ≤ found.attempts * (length source.now + 1)) }
    ensures each { IfOk result (λ found. 2 * length found.lists.spans.items ≤ found.reads) }
{
    let mut tried = Tried::new(alloc);
    let mut comments = Comments::new(alloc);
    let mut kept = ReadKinds::new(alloc);
    let mut scratch = Scratch::new(alloc);
    let mut attempts = 0usize;
    let mut reads = 0u128;
    let mut left = source;
    'characters: while let Some((before, _)) = left.rsplit_once('<') {
        let start = before.len();
        let (_, text) = source.split_at(start);
        let read = kept.len();
        let read_before = reads;
        let found = attempt(
            &tried,
            &mut comments,
            &mut kept,
            &mut scratch,
            &mut reads,
            source,
            text,
        )?;
        attempts += 1;
        if let Some(found) = found {
            let tokens = reads.saturating_sub(read_before);
            tried.add(&mut kept, read, tokens, start, found)?;
        }
        left = before;
    }
    let Tried { lists, .. } = tried;
    Ok(Templates {
        lists,
        attempts,
        reads,
    })
}
