//! Calls on the tokens and the template lists of a text.

use crate::answers::Answers;
use crate::refusal::Refusal;
use crate::texts;
use std::alloc::{AllocError, Global};
use std::fmt;
use wgsl_parse::error::ParseError;
use wgsl_parse::lexer::{Lexer, Templates, Token, discover, recognize_template_list};
use wgsl_parse::parser;
use wgsl_parse::parser::TryTemplateListParser;

/// Finds the template lists of modules, copies them, and looks for lists at the front of texts.
pub fn make_lists(answers: &mut Answers) {
    let alloc = answers.alloc;
    for text in texts::MODULES {
        discover_lists(answers, text);
    }
    for text in texts::LISTS {
        let parser = TryTemplateListParser::new();
        let _ = answers.call("TryTemplateListParser", text, || {
            parser.parse(alloc, Lexer::new(alloc, text)?)
        });
        let _ = answers.call("lexer::recognize_template_list", text, || {
            recognize_template_list(alloc, text)
        });
        let _ = answers.call("parser::recognize_template_list", text, || {
            parser::recognize_template_list(alloc, Lexer::new(alloc, text)?)
        });
    }
}

/// Reads the tokens of modules, and of what is not a module, and copies them.
pub fn make_tokens(answers: &mut Answers) {
    for text in texts::MODULES {
        see_items(answers, text);
    }
    for text in texts::FAULTS {
        see_items(answers, text);
    }
}

/// Copies lexers.
pub fn make_lexers(answers: &mut Answers) {
    for text in texts::LISTS {
        see_copies(answers, text);
    }
}

/// The template lists of a text of this length.
#[derive(Drop)]
struct Lists {
    templates: Templates,
    length: usize,
}

impl Lists {
    fn of(alloc: Global, text: &str) -> Result<Lists, AllocError> {
        Ok(Lists {
            templates: discover(alloc, text)?,
            length: text.len(),
        })
    }

    fn copy(&self, alloc: Global) -> Result<Lists, AllocError> {
        Ok(Lists {
            templates: self.templates.clone(alloc)?,
            length: self.length,
        })
    }
}

impl fmt::Debug for Lists {
    fn fmt<W: fmt::Write>(&self, f: &mut fmt::Formatter<W>) -> fmt::Result {
        let (attempts, reads) = (self.templates.attempts(), self.templates.reads());
        write!(f, "{attempts} attempts, {reads} reads")?;
        for place in 0..self.length {
            if let Some(end) = self.templates.end_of(place) {
                write!(f, ", {place}..{end}")?;
            }
        }
        Ok(())
    }
}

/// Adds the template lists of a text, and a copy of them.
fn discover_lists(answers: &mut Answers, text: &'static str) {
    let alloc = answers.alloc;
    if let Ok(lists) = answers.call("discover", text, || Lists::of(alloc, text)) {
        let _ = answers.call("Templates::clone", text, || lists.copy(alloc));
        answers.see("Templates::clone", text, &lists);
    }
}

/// What a lexer returns of a token, or of its end.
type Item = Result<Option<(usize, Token, usize)>, (usize, ParseError, usize)>;

fn is_want_of_memory(item: &Item) -> bool {
    item.as_ref().is_err_and(|fault| fault.is_want_of_memory())
}

/// Returns a lexer of a text that has returned so many items.
fn lexer_after(alloc: Global, text: &str, count: usize) -> Result<Lexer<'_>, AllocError> {
    let mut lexer = Lexer::new(alloc, text)?;
    for _ in 0..count {
        if is_want_of_memory(&lexer.next().transpose()) {
            return Err(AllocError);
        }
    }
    Ok(lexer)
}

/// Adds what a lexer returns, up to its end: one that is out of memory returns so in place of an
/// item, and then nothing more.
fn see_items(answers: &mut Answers, text: &'static str) {
    let alloc = answers.alloc;
    let Ok(mut lexer) = answers.given("Lexer::new", text, || Lexer::new(alloc, text)) else {
        return;
    };
    for count in 0..=text.len() {
        let mut item = lexer.next().transpose();
        if is_want_of_memory(&item) {
            answers.refuse("Lexer::next", text);
            if lexer.next().is_some() {
                answers.see("Lexer::next", text, &"more than out of memory");
            }
            let Ok(again) = lexer_after(alloc, text, count) else {
                return;
            };
            lexer = again;
            item = lexer.next().transpose();
        }
        answers.see("Lexer::next", text, &item);
        if !is_copied(answers, text, &item) {
            return;
        }
    }
}

/// Adds a copy of a token or of a fault, and returns whether more can come.
fn is_copied(answers: &mut Answers, text: &'static str, item: &Item) -> bool {
    let alloc = answers.alloc;
    match item {
        Ok(Some((_, token, _))) => {
            let _ = answers.call("Token::clone", text, || token.clone(alloc));
        }
        Ok(None) => return false,
        Err((_, error, _)) => {
            let _ = answers.call("ParseError::clone", text, || error.clone(alloc));
        }
    }
    answers.see("Token::clone", text, item);
    true
}

/// Adds what a copy of a lexer returns first, at each of its tokens.
fn see_copies(answers: &mut Answers, text: &'static str) {
    let alloc = answers.alloc;
    for count in 0..=text.len() {
        let lexer = answers.given("Lexer::new", text, || lexer_after(alloc, text, count));
        let Ok(lexer) = lexer else {
            return;
        };
        let item = answers.call("Lexer::clone", text, || next_of_copy(&lexer, alloc));
        if matches!(item, Ok(None)) {
            return;
        }
    }
}

/// What a copy of a lexer returns next.
fn next_of_copy(lexer: &Lexer<'_>, alloc: Global) -> Item {
    match lexer.clone(alloc) {
        Ok(mut copy) => copy.next().transpose(),
        Err(_) => Err((0, ParseError::OutOfMemory, 0)),
    }
}
