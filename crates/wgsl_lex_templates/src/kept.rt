//! The kinds of tokens that were read, in which a stretch that was read before may be again.

ghost use Rattle.std.specs.Prelude.{◌≡◌, ◌≤◌, [], ◌∷◌, ◌++◌, take, length, IfOk, IsTrue};
ghost use Rattle.wgsl_lex_token.specs.View.{classes};
ghost use Rattle.wgsl_lex_templates.specs.Kept.{are_earlier, held, BeginWith};
ghost use Rattle.wgsl_lex_templates.specs.declared.kept.Piece.TheVariants.{Token, Stretch};

use std::alloc::{AllocError, Global};
use wgsl_lex_token::kind::TokenKind;

/// One token, or all that an earlier stretch of pieces has.
#[derive(Clone, Copy)]
pub(crate) enum Piece {
    Token(TokenKind),
    Stretch { start: usize, end: usize },
}

/// The rest of a stretch, from one place up to another.
#[derive(Clone, Copy)]
pub(crate) struct Rest {
    at: usize,
    to: usize,
}

/// Pieces in the order in which they were read.
#[derive(Drop)]
pub(crate) struct ReadKinds {
    pieces: Vec<Piece>,
    /// Each stretch ends before its own place in the list.
    ghost earlier: { IsTrue (are_earlier 0 pieces.items) },
}

impl ReadKinds {
    pub(crate) fn new(alloc: Global) -> ReadKinds
        ensures { result.pieces.items ≡ [] }
    {
        ReadKinds {
            pieces: Vec::new(alloc),
        }
    }

    pub(crate) fn len(&self) -> usize
        ensures { result ≡ length self.now.pieces.items }
    {
        self.pieces.len()
    }

    pub(crate) fn push(&mut self, kind: TokenKind) -> Result<(), AllocError>
        ensures { IfOk result (λ _.
            self.new.pieces.items ≡ self.old.pieces.items ++ Token kind ∷ []) }
    {
        self.pieces.push(Piece::Token(kind))?;
        Ok(())
    }

    pub(crate) fn push_stretch(&mut self, start: usize, end: usize) -> Result<(), AllocError>
        requires { end ≤ length self.old.pieces.items }
        ensures { IfOk result (λ _.
            self.new.pieces.items ≡ self.old.pieces.items ++ Stretch start end ∷ []) }
    {
        self.pieces.push(Piece::Stretch { start, end })?;
        Ok(())
    }

    /// Adds tokens of these kinds.
    pub(crate) fn push_all(&mut self, kinds: &[TokenKind]) -> Result<(), AllocError>
        ensures more { IfOk result (λ _. BeginWith self.old.pieces.items self.new.pieces.items) }
        ensures value { IfOk result (λ _. held self.new.pieces.items
            (length self.old.pieces.items) (length self.new.pieces.items) ≡ classes kinds.now) }
    {
        for kind in kinds {
            self.push(*kind)?;
        }
        Ok(())
    }

    /// Forgets the pieces from a place on.
    pub(crate) fn truncate(&mut self, len: usize)
        ensures { self.new.pieces.items ≡ take len self.old.pieces.items }
    {
        self.pieces.truncate(len);
    }

    /// Puts the kinds of a stretch after others. The rests are overwritten: they are what comes
    /// after the stretch that is gone through, the nearest last. A stretch that is last leaves no
    /// rest, so that stretches that each end with another take no memory.
    pub(crate) fn push_kinds(
        &self,
        start: usize,
        end: usize,
        kinds: &mut Vec<TokenKind>,
        rests: &mut Vec<Rest>,
    ) -> Result<(), AllocError>
        requires { end ≤ length self.now.pieces.items }
        ensures { IfOk result (λ _. classes kinds.new.items
            ≡ classes kinds.old.items ++ held self.now.pieces.items start end) }
    {
        rests.clear();
        let mut left = Rest { at: start, to: end };
        'pieces: loop {
            if left.at >= left.to {
                let Some(rest) = rests.pop() else {
                    return Ok(());
                };
                left = rest;
                continue;
            }
            match self.pieces[left.at] {
                Piece::Token(kind) => {
                    kinds.push(kind)?;
                    left.at += 1;
                    continue;
                }
                Piece::Stretch { start, end } => {
                    left.at += 1;
                    if left.at == left.to {
                        left = Rest { at: start, to: end };
                        continue;
                    }
                    rests.push(left)?;
                    left = Rest { at: start, to: end };
                    continue;
                }
            }
        }
    }
}
