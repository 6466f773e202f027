//! The tokens that are left to be read.
#![tactic(auto, unfolding(crate::proofs::Hints::definitions), using(crate::proofs::Hints::lemmas))]

ghost use Rattle.std.specs.Prelude.{◌≡◌, option_map};
ghost use Rattle.grammar.specs.Tokens.{Token};
ghost use Rattle.wgsl_lex_token.specs.View.{class_of_kind};
ghost use Rattle.wgsl_read_cursor.specs.Tokens.{rest_of, next_class};

use crate::expected::Expected;
use crate::fault::Fault;
use crate::tokens::Tokens;
use crate::word::Word;
use std::alloc::{AllocError, Global};
use std::collections::VecDeque;
use wgsl_error::{Error, ErrorKind};
use wgsl_lex_token::kind::TokenKind;
use wgsl_lex_token::placed::PlacedToken;
use wgsl_lex_token::token::Token;
use wgsl_lexer::TextTokens;
use wgsl_span::Span;

/// The tokens that are left, and where the last one that was taken ended.
#[derive(Drop)]
pub struct Cursor<'s> {
    /// For what is refused.
    alloc: Global,
    tokens: Tokens<'s>,
    /// Which of them is next, if there is one.
    next: Option<TokenKind>,
    end: usize,
    /// How many levels deeper what is read may nest.
    depth: usize,
    ghost known: { option_map class_of_kind next ≡ next_class tokens },
}

impl<'s> Cursor<'s> {
    ghost use Rattle.std.specs.Prelude.{◌↔◌, ◌<◌, true, [], length, map, MatchOption, OnOk, IfOk, IsTrue, if◌then◌else◌, string_bytes};
    ghost use Rattle.grammar.specs.States.{is_at, next_start, first_of, after, take, refused};
    ghost use Rattle.wgsl_model.specs.Grammar.TokenValues.{text_of};
    ghost use Rattle.wgsl_model.specs.Grammar.Symbols.{Symbol.ident};
    ghost use Rattle.wgsl_lex_token.specs.Placed.{placed_view};
    ghost use Rattle.wgsl_theory_grammar.specs.Factored.{FactoredSymbol.of};
    ghost use Rattle.wgsl_theory_grammar.specs.Reader.{reader};
    ghost use Rattle.wgsl_lexer.specs.TextTokens.{tokens_left, IsTaken};
    ghost use Rattle.wgsl_read_cursor.specs.Reading.{state, token_at, span_back, Gives, Fails, Parses};
    ghost use Rattle.wgsl_read_cursor.specs.Words.{word_text, attribute_name_at};

    /// Returns a cursor at the first of the tokens that are given.
    pub fn new(tokens: VecDeque<PlacedToken>) -> Cursor<'s>
        ensures { state result ≡ record { end = 0; rest = map placed_view tokens.items } }
    {
        let alloc = *tokens.allocator();
        Cursor::before(alloc, Tokens::Given(tokens), usize::MAX)
    }

    /// Returns a cursor at the first of the tokens of a text, which may nest a number of levels
    /// deep.
    pub fn of_text(alloc: Global, tokens: TextTokens<'s>, depth: usize) -> Cursor<'s>
        ensures { state result ≡ record { end = 0; rest = tokens_left tokens.entry } }
    {
        Cursor::before(alloc, Tokens::Text(tokens), depth)
    }

    /// Tokens of which none was taken.
    fn before(alloc: Global, tokens: Tokens<'s>, depth: usize) -> Cursor<'s>
        ensures { state result ≡ record { end = 0; rest = rest_of tokens.entry } }
    {
        let next = tokens.kind();
        Cursor {
            alloc,
            tokens,
            next,
            end: 0,
            depth,
        }
    }

    /// Begins what is one level deeper. The error is returned where that is too deep, so that the
    /// stack does not end: it is memory too.
    #[inline]
    pub fn go_deeper(&mut self) -> Result<(), AllocError>
        ensures { state self.new ≡ state self.old }
    {
        match self.depth.checked_sub(1) {
            Some(depth) => {
                self.depth = depth;
                Ok(())
            }
            None => Err(AllocError),
        }
    }

    /// Ends what is one level deeper.
    #[inline]
    pub fn come_back(&mut self)
        ensures { state self.new ≡ state self.old }
    {
        self.depth = self.depth.saturating_add(1);
    }

    /// Returns whether no token is left.
    pub fn is_empty(&self) -> bool
        ensures { IsTrue result ↔ ((state self.now).rest ≡ []) }
    {
        self.next.is_none()
    }

    /// Returns the kind of the next token, if there is one.
    #[inline]
    pub fn kind(&self) -> Option<TokenKind>
        ensures { MatchOption result ((state self.now).rest ≡ [])
            (λ kind. is_at (class_of_kind kind) (state self.now) ≡ true) }
    {
        self.next
    }

    /// Returns whether the next token is of a kind.
    #[inline]
    pub fn is_at(&self, kind: TokenKind) -> bool
        ensures { result ≡ is_at (class_of_kind kind) (state self.now) }
    {
        match self.next {
            Some(next) => next == kind,
            None => false,
        }
    }

    /// Returns where the next token starts.
    #[inline(never)]
    pub fn start(&self) -> usize
        ensures { result ≡ next_start (state self.now) }
    {
        match self.tokens.span() {
            Some(span) => span.start,
            None => 0,
        }
    }

    /// Returns the span from a place to the end of the last token that was taken.
    pub fn span_from(&self, start: usize) -> Span
        ensures { result ≡ span_back start (state self.now) }
    {
        Span {
            start,
            end: self.end,
        }
    }

    /// Takes the next token if it is of a kind.
    #[inline]
    pub fn eat(&mut self, kind: TokenKind) -> bool
        ensures value { result ≡ is_at (class_of_kind kind) (state self.old) }
        ensures rest { state self.new
            ≡ (if result then after (state self.old) else state self.old) }
        ensures shorter { IsTrue result →
            length (state self.new).rest < length (state self.old).rest }
    {
        if !self.is_at(kind) {
            return false;
        }
        self.skip();
        true
    }

    /// Where the next token ends, or where there is none the last one that was taken.
    fn next_end(&self) -> usize
        ensures { result ≡ (after (state self.now)).end }
    {
        match self.tokens.span() {
            Some(span) => span.end,
            None => self.end,
        }
    }

    /// Goes after the next token, if there is one.
    #[inline(never)]
    fn skip(&mut self)
        ensures { state self.new ≡ after (state self.old) }
    {
        self.end = self.next_end();
        self.tokens.skip();
        self.next = self.tokens.kind();
    }

    /// Takes the next token, if there is one. Where it ends is not noted.
    fn take(&mut self) -> Result<Option<PlacedToken>, AllocError>
        ensures taken { IfOk result (λ taken.
            IsTaken (state self.old).rest taken (state self.new).rest) }
        ensures end { self.new.end ≡ self.old.end }
    {
        let taken = self.tokens.take();
        self.next = self.tokens.kind();
        taken
    }

    /// Takes the next token, which has to be of a kind.
    pub fn expect(&mut self, kind: TokenKind) -> Result<(), Fault>
        ensures { Parses
            (λ _. first_of (state self.old)) result self.old self.new (take (class_of_kind kind)) }
    {
        if self.eat(kind) {
            return Ok(());
        }
        Err(self.refuse(Expected::One(kind)))
    }

    /// Takes the next token, which can't be here, as the fault; or the fault is that there is none.
    pub fn refuse(&mut self, expected: Expected) -> Fault
        ensures { Fails result (refused {A = Token} (state self.old)) }
    {
        match self.take() {
            Ok(Some(next)) => Fault::unexpected_token(self.alloc, next, expected),
            Ok(None) => Fault::unexpected_end(self.alloc, self.end, expected),
            Err(error) => Fault::from(error),
        }
    }

    /// Takes the next token. `expected` is what could be in its place.
    pub fn next(&mut self, expected: Expected) -> Result<PlacedToken, Fault>
        ensures { Parses placed_view result self.old self.new token_at }
    {
        match self.take()? {
            None => Err(Fault::unexpected_end(self.alloc, self.end, expected)),
            Some(token) => {
                self.end = token.span.end;
                Ok(token)
            }
        }
    }

    /// Takes a name.
    pub fn name(&mut self) -> Result<String, Fault>
        ensures value { Gives (λ _. first_of (state self.old)) result
            (state self.new) (reader (of ident) (state self.old)) }
        ensures text { IfOk result (λ name.
            string_bytes name ≡ text_of (first_of (state self.old))) }
        ensures shorter { OnOk result
            (length (state self.new).rest < length (state self.old).rest) }
    {
        if let Some(name) = self.tokens.name() {
            let name = String::from_str(self.alloc, name)?;
            self.skip();
            return Ok(name);
        }
        self.take_name()
    }

    /// Takes a name with its token.
    fn take_name(&mut self) -> Result<String, Fault>
        ensures value { Gives (λ _. first_of (state self.old)) result
            (state self.new) (reader (of ident) (state self.old)) }
        ensures text { IfOk result (λ name.
            string_bytes name ≡ text_of (first_of (state self.old))) }
        ensures shorter { OnOk result
            (length (state self.new).rest < length (state self.old).rest) }
    {
        match self.take()? {
            None => Err(Fault::unexpected_end(
                self.alloc,
                self.end,
                Expected::One(TokenKind::Ident),
            )),
            Some(PlacedToken { token, span }) => match token {
                Token::Ident(name) => {
                    self.end = span.end;
                    Ok(name)
                }
                Token::ReservedWord(word) => Err(Fault::checked(
                    self.alloc,
                    Error {
                        error: ErrorKind::ReservedWord(word),
                        span,
                    },
                )),
                token => Err(Fault::unexpected_token(
                    self.alloc,
                    PlacedToken { token, span },
                    Expected::One(TokenKind::Ident),
                )),
            },
        }
    }

    /// Takes the name of an attribute: a name, a reserved word or a keyword.
    pub fn attribute_name(&mut self) -> Result<Word, Fault>
        ensures value { Gives (λ _. first_of (state self.old)) result
            (state self.new) (attribute_name_at (state self.old)) }
        ensures word { IfOk result (λ word. word_text word ≡ text_of (first_of (state self.old))) }
        ensures shorter { OnOk result
            (length (state self.new).rest < length (state self.old).rest) }
    {
        match self.take()? {
            None => Err(Fault::unexpected_end(self.alloc, self.end, Expected::ATTRIBUTE_NAME)),
            Some(PlacedToken { token, span }) => {
                let word = match token {
                    Token::Ident(name) | Token::ReservedWord(name) => Word::Held(name),
                    token => {
                        if !token.is_keyword() {
                            return Err(Fault::unexpected_token(
                                self.alloc,
                                PlacedToken { token, span },
                                Expected::ATTRIBUTE_NAME,
                            ));
                        }
                        Word::Keyword(token.kind().text())
                    }
                };
                self.end = span.end;
                Ok(word)
            }
        }
    }
}
