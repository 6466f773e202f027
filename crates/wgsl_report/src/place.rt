//! The place of a span in a text.

ghost use Rattle.std.specs.Prelude.{◌≡◌, ◌≤◌, count_by, length};
ghost use Rattle.std.specs.List.{after_last, before_first};
ghost use Rattle.std.specs.Str.{chars};
ghost use Rattle.wgsl_error.specs.Places.{column_number};
ghost use Rattle.wgsl_model.specs.Faults.Snippets.{is_line_feed, text_before, text_within};
ghost use Rattle.wgsl_model.specs.Faults.Snippets.{line_front, line_number, mark_count, text_from};
ghost use Rattle.wgsl_span.specs.View.{span_view};

use wgsl_span::Span;

/// The place of a span: the line in which it starts.
#[derive(Clone, Copy)]
pub(crate) struct Place<'s> {
    /// The number of the line, from 1.
    pub line: usize,
    /// The number of the column, from 1.
    pub column: usize,
    /// The line up to the span.
    pub front: &'s str,
    /// The line from the span on.
    pub back: &'s str,
    /// How many characters of the span are in the line.
    pub marks: usize,
}

/// The place of a span in a source.
pub(crate) fn place_of(source: &str, span: Span) -> Place<'_>
    ensures line { result.line ≡ line_number (chars source.now) (span_view span) }
    ensures column { result.column ≡ column_number (chars source.now) (span_view span) }
    ensures front { chars result.front.now ≡ line_front (chars source.now) (span_view span) }
    ensures back { chars result.back.now
        ≡ before_first is_line_feed (text_from (chars source.now) (span_view span)) }
    ensures marks { result.marks ≡ mark_count (chars source.now) (span_view span) }
{
    let (before, spanned, rest) = cut(source, span);
    let front = after_last_line_feed(before);
    Place {
        line: 1 + line_feed_count(before),
        column: 1 + columns(front),
        front,
        back: before_first_line_feed(rest),
        marks: columns(before_first_line_feed(spanned)),
    }
}

/// What is before a span, what is in it, and what is from its start on.
fn cut(source: &str, span: Span) -> (&str, &str, &str)
    ensures before { chars result.0.now ≡ text_before (chars source.now) (span_view span) }
    ensures spanned { chars result.1.now ≡ text_within (chars source.now) (span_view span) }
    ensures rest { chars result.2.now ≡ text_from (chars source.now) (span_view span) }
{
    let start = source.floor_char_boundary(span.start);
    let end = source.floor_char_boundary(span.end);
    let (before, rest) = source.split_at(start);
    (before, source.get(start..end).unwrap_or_default(), rest)
}

fn line_feed_count(text: &str) -> usize
    ensures count { result ≡ count_by is_line_feed (chars text.now) }
    ensures bound { result ≤ length text.now }
{
    text.chars().filter(|c| *c == '\n').count()
}

fn after_last_line_feed(text: &str) -> &str
    ensures { chars result.now ≡ after_last is_line_feed (chars text.now) }
{
    match text.rsplit_once('\n') {
        Some((_, line)) => line,
        None => text,
    }
}

fn before_first_line_feed(text: &str) -> &str
    ensures { chars result.now ≡ before_first is_line_feed (chars text.now) }
{
    match text.split_once('\n') {
        Some((line, _)) => line,
        None => text,
    }
}

/// How many characters a text has.
pub(crate) fn columns(text: &str) -> usize
    ensures count { result ≡ length (chars text.now) }
    ensures bound { result ≤ length text.now }
{
    text.chars().count()
}
