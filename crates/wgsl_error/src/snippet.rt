//! Errors with their source, which print as snippets.

ghost use Rattle.std.specs.Prelude.{◌≡◌, ◌≤◌, Some, IfOk, length, replicate, count_by};
ghost use Rattle.std.specs.Str.{chars};
ghost use Rattle.std.specs.List.{concat, before_first, after_last};
ghost use Rattle.std.specs.Fmt.{DisplaysOnOk};
ghost use Rattle.std.specs.Cow.{cow_str_bytes};
ghost use Rattle.wgsl_model.specs.Faults.Snippets.{is_line_feed, text_before, text_within, text_from, line_number};
ghost use Rattle.wgsl_span.specs.View.{span_view};
ghost use Rattle.wgsl_error.specs.View.{kind_number, kind_texts, expected_texts};
ghost use Rattle.wgsl_error.specs.Places.{column_number, marked_line};
ghost use Rattle.wgsl_error.specs.Printing.{print_error_with_source};

use crate::Error;
use std::alloc::{AllocError, Global};
use std::borrow::CowStr;
use std::fmt;
use std::fmt::Write;
use wgsl_span::Span;

/// An error and the source that it is in. It prints its message and place, the line in which
/// its span starts, and a line of carets below the span. Lines end at an LF alone; columns are
/// counted in characters.
#[derive(PartialEq, Debug, Drop)]
pub struct ErrorWithSource<'s> {
    pub error: Error,
    pub source: CowStr<'s>,
}

impl std::error::Error for ErrorWithSource<'_> {}

impl Error {
    /// Returns the error with its source. The span's places are byte offsets into the source; every
    /// span is accepted: a place past the end is taken for the end, one inside a character for its
    /// start, and an end before the start for the start.
    pub fn with_source(self, source: CowStr<'_>) -> ErrorWithSource<'_>
        ensures { result ≡ record { error = self; source = source.entry } }
    {
        ErrorWithSource::new(self, source)
    }
}

impl<'s> ErrorWithSource<'s> {
    /// Creates an error with its source.
    pub fn new(error: Error, source: CowStr<'s>) -> Self
        ensures { result ≡ record { error = error; source = source.entry } }
    {
        ErrorWithSource { error, source }
    }

    /// Returns a copy, unless allocation fails.
    pub fn clone(&self, alloc: Global) -> Result<Self, AllocError>
        ensures number { IfOk result (λ copy.
            kind_number copy.error.error ≡ kind_number self.now.error.error) }
        ensures texts { IfOk result (λ copy.
            kind_texts copy.error.error ≡ kind_texts self.now.error.error) }
        ensures expected { IfOk result (λ copy.
            expected_texts copy.error.error ≡ expected_texts self.now.error.error) }
        ensures span { IfOk result (λ copy. copy.error.span ≡ self.now.error.span) }
        ensures source { IfOk result (λ copy.
            cow_str_bytes copy.source ≡ cow_str_bytes self.now.source) }
    {
        Ok(ErrorWithSource {
            error: self.error.clone(alloc)?,
            source: self.source.clone()?,
        })
    }
}

impl fmt::Display for ErrorWithSource<'_> {
    ghost output = { λ e. Some (print_error_with_source e) };

    fn fmt<W: fmt::Write>(&self, f: &mut fmt::Formatter<W>) -> fmt::Result {
        let (source, span) = (self.source.as_str(), self.error.span);
        let (line, column) = line_and_column(source, span);
        let message = &self.error.error;
        writeln!(f, "error: {message}\n --> line {line}, column {column}")?;
        write_marked_line(source, span, f)
    }
}

/// The line and the column at which a span starts, both counted from 1.
pub(crate) fn line_and_column(source: &str, span: Span) -> (usize, usize)
    ensures line { result.0 ≡ line_number (chars source.now) (span_view span) }
    ensures column { result.1 ≡ column_number (chars source.now) (span_view span) }
{
    let (before, _, _) = cut(source, span);
    let front = after_last_line_feed(before);
    (1 + line_feed_count(before), 1 + char_count(front))
}

/// Writes the line in which a span starts and a line of carets below the span.
pub(crate) fn write_marked_line<W: fmt::Write>(
    source: &str,
    span: Span,
    f: &mut fmt::Formatter<W>,
) -> fmt::Result
    ensures { let written = marked_line (chars source.now) (span_view span) in
        DisplaysOnOk W.write_str_gives f.old result (Some written) f.new }
{
    let (before, spanned, rest) = cut(source, span);
    let front = after_last_line_feed(before);
    let back = before_first_line_feed(rest);
    let spaces = char_count(front);
    let carets = char_count(before_first_line_feed(spanned)).max(1);
    writeln!(f, "{front}{back}")?;
    write_times(" ", spaces, f)?;
    write_times("^", carets, f)
}

/// What is before a span, what is in it, and what is from its start on.
fn cut(source: &str, span: Span) -> (&str, &str, &str)
    ensures before { chars result.0.now ≡ text_before (chars source.now) (span_view span) }
    ensures spanned { chars result.1.now ≡ text_within (chars source.now) (span_view span) }
    ensures rest { chars result.2.now ≡ text_from (chars source.now) (span_view span) }
{
    let start = source.floor_char_boundary(span.start);
    let end = source.floor_char_boundary(span.end);
    let (before, rest) = source.split_at(start);
    (before, source.get(start..end).unwrap_or_default(), rest)
}

fn line_feed_count(text: &str) -> usize
    ensures count { result ≡ count_by is_line_feed (chars text.now) }
    ensures bound { result ≤ length text.now }
{
    text.chars().filter(|c| *c == '\n').count()
}

fn after_last_line_feed(text: &str) -> &str
    ensures { chars result.now ≡ after_last is_line_feed (chars text.now) }
{
    match text.rsplit_once('\n') {
        Some((_, line)) => line,
        None => text,
    }
}

fn before_first_line_feed(text: &str) -> &str
    ensures { chars result.now ≡ before_first is_line_feed (chars text.now) }
{
    match text.split_once('\n') {
        Some((line, _)) => line,
        None => text,
    }
}

fn char_count(text: &str) -> usize
    ensures count { result ≡ length (chars text.now) }
    ensures bound { result ≤ length text.now }
{
    text.chars().count()
}

/// Writes a text a number of times.
fn write_times<W: fmt::Write>(text: &str, times: usize, f: &mut fmt::Formatter<W>) -> fmt::Result
    ensures { let written = concat (replicate times text.now) in
        DisplaysOnOk W.write_str_gives f.old result (Some written) f.new }
{
    'times: for _ in 0..times {
        f.write_str(text)?;
    }
    Ok(())
}
