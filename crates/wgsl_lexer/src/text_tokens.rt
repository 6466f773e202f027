//! The tokens of a text that are left, each made where it is taken.

ghost use Rattle.std.specs.Prelude.{◌+◌, ◌-◌, ◌≤◌, chars, length, vec_len, vec_capacity};
ghost use Rattle.wgsl_lex_templates.specs.Lists.{AreTold};
ghost use Rattle.wgsl_lexer.specs.Room.{starts_from};

use crate::ends::{enter, leave};
use std::alloc::{AllocError, Global};
use wgsl_lex_scanner::lexeme::Lexeme;
use wgsl_lex_scanner::scan::{Scanned, place, scan};
use wgsl_lex_templates::roles::{is_less_than, is_word};
use wgsl_lex_templates::text::after_first;
use wgsl_lex_templates::{Templates, discover};
use wgsl_lex_token::kind::TokenKind;
use wgsl_lex_token::placed::PlacedToken;
use wgsl_span::Span;

/// What is next in a text.
#[derive(Clone, Copy)]
pub(crate) enum Next<'s> {
    Token { lexeme: Lexeme<'s>, span: Span },
    /// Text that is no token.
    Invalid(Span),
    NoneLeft,
}

/// The tokens of a text that are left. Going on takes no memory, and a token takes it only for what
/// it holds.
#[derive(Drop)]
pub struct TextTokens<'s> {
    alloc: Global,
    /// How many bytes the source has.
    total: usize,
    next: Next<'s>,
    /// The text after what is next.
    rest: &'s str,
    /// Whether what is next is a word that a template list may follow.
    after_word: bool,
    /// Where the template lists end that the rest is in, the innermost last.
    ends: Vec<usize>,
    /// How many more may be entered.
    room: usize,
    /// The template lists of the source.
    templates: Templates,
    ghost within: { length rest.now ≤ total },
    ghost told: { AreTold total templates.lists.spans.items (chars rest.now) },
    ghost reserved: { vec_len ends + room ≤ vec_capacity ends },
    ghost enough: { starts_from (total - length rest.now) templates.lists.spans.items ≤ room },
}

impl<'s> TextTokens<'s> {
    ghost use Rattle.std.specs.Prelude.{◌≡◌, ◌<◌, List, [], drop, true, IfOk, IfSome, MatchOption, Some, None};
    ghost use Rattle.grammar.specs.Tokens as grammar;
    ghost use Rattle.grammar.specs.Endings.{Ending, Ending.finished};
    ghost use Rattle.wgsl_model.specs.Tokens.ClassTable.{SymLessThan};
    ghost use Rattle.wgsl_model.specs.Tokens.Raw.{raw, Raw.token};
    ghost use Rattle.wgsl_model.specs.Tokens.TokenList.{IsTokenList, place};
    ghost use Rattle.wgsl_lex_token.specs.View.{class_of_kind};
    ghost use Rattle.wgsl_lex_scanner.specs.View.{lexeme_view};
    ghost use Rattle.wgsl_lex_templates.specs.Spans.{end_from};
    ghost use Rattle.wgsl_lexer.specs.Endings.{ending_with};
    ghost use Rattle.wgsl_lexer.specs.TextTokens.{AreAfter, has_left, from_next, IsToken, tokens_left, ending_left, StartWithKind, BeginAt, BeginWithName, IsTaken};

    /// Creates the tokens of a text.
    pub fn new(alloc: Global, source: &'s str) -> Result<TextTokens<'s>, AllocError>
        ensures { IfOk result (λ tokens.
            IsTokenList (chars source.now) (tokens_left tokens) (ending_left tokens)) }
    {
        let mut tokens = TextTokens::before(alloc, source)?;
        tokens.go_on();
        Ok(tokens)
    }

    /// Nothing is next, and the whole source is after it.
    fn before(alloc: Global, source: &'s str) -> Result<TextTokens<'s>, AllocError>
        ensures { IfOk result (λ tokens. (ts : List grammar.Token) (e : Ending) →
            AreAfter tokens ts e → IsTokenList (chars source.now) ts e) }
    {
        let templates = discover(alloc, source)?;
        let room = templates.attempts();
        let ends = Vec::with_capacity(alloc, room)?;
        Ok(TextTokens {
            alloc,
            total: source.len(),
            next: Next::NoneLeft,
            rest: source,
            after_word: false,
            ends,
            room,
            templates,
        })
    }

    /// Returns the same tokens once more.
    pub fn clone(&self, alloc: Global) -> Result<TextTokens<'s>, AllocError>
        ensures left { IfOk result (λ copy. tokens_left copy ≡ tokens_left self.now) }
        ensures ending { IfOk result (λ copy. ending_left copy ≡ ending_left self.now) }
    {
        let mut ends = Vec::with_capacity(alloc, self.ends.len() + self.room)?;
        ends.extend_from_slice(&self.ends)?;
        let templates = self.templates.clone(alloc)?;
        Ok(TextTokens {
            alloc,
            total: self.total,
            next: self.next,
            rest: self.rest,
            after_word: self.after_word,
            ends,
            room: self.room,
            templates,
        })
    }

    /// Returns the kind of the next token, if there is one.
    pub fn kind(&self) -> Option<TokenKind>
        ensures { MatchOption result
            (tokens_left self.now ≡ []) (StartWithKind (tokens_left self.now)) }
    {
        match self.next {
            Next::Token { lexeme, .. } => Some(lexeme.kind()),
            Next::Invalid(_) | Next::NoneLeft => None,
        }
    }

    /// Returns where the next token is, if there is one.
    pub fn span(&self) -> Option<Span>
        ensures { MatchOption result (tokens_left self.now ≡ []) (BeginAt (tokens_left self.now)) }
    {
        match self.next {
            Next::Token { span, .. } => Some(span),
            Next::Invalid(_) | Next::NoneLeft => None,
        }
    }

    /// Returns the name that is next, if one is.
    pub fn name(&self) -> Option<&'s str>
        ensures { IfSome result (λ name. BeginWithName (tokens_left self.now) name.now) }
    {
        match self.next {
            Next::Token { lexeme, .. } => lexeme.name(),
            Next::Invalid(_) | Next::NoneLeft => None,
        }
    }

    /// Takes the next token, if there is one.
    pub fn take(&mut self) -> Result<Option<PlacedToken>, AllocError>
        ensures taken { IfOk result (λ taken.
            IsTaken (tokens_left self.old) taken (tokens_left self.new)) }
        ensures ending { IfOk result (λ _. ending_left self.new ≡ ending_left self.old) }
    {
        let Next::Token { lexeme, span } = self.next else {
            return Ok(None);
        };
        let token = lexeme.to_token(self.alloc)?;
        self.go_on();
        Ok(Some(PlacedToken { token, span }))
    }

    /// Returns the span of the text that is not a token and ends the tokens, if no token is left
    /// and there is such text.
    pub fn invalid(&self) -> Option<Span>
        ensures { tokens_left self.now ≡ [] → ending_left self.now ≡ ending_with result }
    {
        match self.next {
            Next::Invalid(span) => Some(span),
            Next::Token { .. } | Next::NoneLeft => None,
        }
    }

    /// Passes over all that is left, and over what ends it.
    pub(crate) fn finish(&mut self)
        ensures left { tokens_left self.new ≡ [] }
        ensures ending { ending_left self.new ≡ finished }
    {
        self.next = Next::NoneLeft;
    }

    /// Goes on after the next token, if there is one.
    pub fn skip(&mut self)
        ensures left { tokens_left self.new ≡ drop 1 (tokens_left self.old) }
        ensures ending { ending_left self.new ≡ ending_left self.old }
    {
        if let Next::Token { .. } = self.next {
            self.go_on();
        }
    }

    /// Finds what is next after it.
    fn go_on(&mut self)
        ensures left { tokens_left self.new ≡ (has_left self.old).0 }
        ensures ending { ending_left self.new ≡ (has_left self.old).1 }
    {
        match scan(self.rest) {
            Scanned::NoneLeft => self.next = Next::NoneLeft,
            Scanned::Invalid { from, after } => {
                self.next = Next::Invalid(self.span_of(from, after));
            }
            Scanned::Found {
                lexeme,
                from,
                after,
            } => self.next = self.found(lexeme, from, after),
        }
    }

    /// From one place of the text to another.
    fn span_of(&self, from: &str, after: &str) -> Span
        ensures start { result.start ≡ place self.now.total (chars from.now) }
        ensures end { result.end ≡ place self.now.total (chars after.now) }
    {
        Span {
            start: place(self.total, from),
            end: place(self.total, after),
        }
    }

    /// Where the text begins after the list whose `<` is a token of a kind at the place.
    fn list_end(&self, kind: TokenKind, start: usize) -> Option<usize>
        ensures { MatchOption result (self.now.after_word ≡ true → class_of_kind kind
            ≡ SymLessThan → end_from self.now.templates.lists.spans.items start ≡ None) (λ end.
            (self.now.after_word ≡ true) × (class_of_kind kind ≡ SymLessThan) ×
            (end_from self.now.templates.lists.spans.items start ≡ Some end)) }
    {
        if self.after_word && is_less_than(kind) {
            return self.templates.end_of(start);
        }
        None
    }

    /// Goes after the token at the front of the rest, which is what is next then.
    fn found(&mut self, lexeme: Lexeme<'s>, from: &'s str, after: &'s str) -> Next<'s>
        requires front { raw (chars self.old.rest.now)
            ≡ token (lexeme_view lexeme) (chars from.now) (chars after.now) }
        requires from { length from.now ≤ length self.old.rest.now }
        requires after { length after.now < length self.old.rest.now }
        ensures value { (ts : List grammar.Token) (e : Ending) →
            AreAfter self.new ts e → AreAfter self.old (from_next result ts) e }
        ensures some { IsToken result }
    {
        let span = self.span_of(from, after);
        if leave(&mut self.ends, span.start) {
            let rest = after_first(from);
            self.after_word = false;
            self.rest = rest;
            return Next::Token {
                lexeme: Lexeme::Plain(TokenKind::TemplateArgsEnd),
                span: self.span_of(from, rest),
            };
        }
        let kind = lexeme.kind();
        if let Some(end) = self.list_end(kind, span.start) {
            enter(&mut self.ends, end - 1);
            self.room -= 1;
            self.after_word = false;
            self.rest = after;
            return Next::Token {
                lexeme: Lexeme::Plain(TokenKind::TemplateArgsStart),
                span,
            };
        }
        self.after_word = is_word(kind);
        self.rest = after;
        Next::Token { lexeme, span }
    }
}
