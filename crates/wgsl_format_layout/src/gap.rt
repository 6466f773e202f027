//! What is written before a piece.

ghost use Rattle.std.specs.Prelude.{◌≡◌, ◌==◌};
ghost use Rattle.wgsl_model.specs.Tokens.ClassTable.{LineComment};
ghost use Rattle.wgsl_model_tidy.specs.LaidOut as plain;
ghost use Rattle.wgsl_model_tidy.specs.Roles.{closes};
ghost use Rattle.wgsl_format_layout.specs.View.{role_view, joint_view};
ghost use Rattle.wgsl_format_layout.specs.Gaps.{comment_class, gap_view, last_view};

use crate::comment::CommentKind;
use crate::joint::Joint;
use crate::role::Role;

/// What is written before a piece.
#[derive(Clone, Copy)]
pub(crate) enum Gap {
    Closed,
    Blank,
    /// A line break, with an empty line or without, and the blank space of a line so deep.
    Broken { empty: bool, depth: usize },
}

/// How deep a line is after a gap, which was so deep before.
pub(crate) fn depth_after(gap: Gap, line: usize) -> usize
    ensures { result ≡ plain.depth_after (gap_view gap) line }
{
    match gap {
        Gap::Closed | Gap::Blank => line,
        Gap::Broken { depth, .. } => depth,
    }
}

/// What the last piece is.
#[derive(Clone, Copy)]
pub(crate) enum Last {
    /// A token, or nothing.
    Token,
    /// A block comment before which nothing but such comments is in its line.
    Leading,
    /// Another comment.
    Comment(CommentKind),
}

/// The line break if the author put one there, else another gap.
fn kept(line_ends: usize, broken: Gap, other: Gap) -> Gap
    ensures { gap_view result ≡ plain.kept_gap line_ends (gap_view broken) (gap_view other) }
{
    if line_ends == 0 { other } else { broken }
}

/// The gap that a joint asks for.
fn joint_gap(joint: Joint, line_ends: usize, broken: Gap) -> Gap
    ensures { gap_view result ≡ plain.joint_gap (joint_view joint) line_ends (gap_view broken) }
{
    match joint {
        Joint::Line => broken,
        Joint::Nothing => Gap::Closed,
        Joint::Space => Gap::Blank,
        Joint::NothingOrLine => kept(line_ends, broken, Gap::Closed),
        Joint::SpaceOrLine => kept(line_ends, broken, Gap::Blank),
    }
}

/// Whether a line break has to be there.
pub(crate) fn is_line(joint: Joint) -> bool
    ensures { result ≡ plain.is_line (joint_view joint) }
{
    match joint {
        Joint::Line => true,
        Joint::Nothing | Joint::Space | Joint::NothingOrLine | Joint::SpaceOrLine => false,
    }
}

/// Whether the last piece is a token, or there is none.
pub(crate) fn is_token(last: Last) -> bool
    ensures { result ≡ plain.is_token (last_view last) }
{
    match last {
        Last::Token => true,
        Last::Leading | Last::Comment(_) => false,
    }
}

/// Whether nothing is before such a token, after a comment too.
fn closes_up(right: Role) -> bool
    ensures { result ≡ plain.closes_up (role_view right) }
{
    right.is_tight() || right.is(Role::TemplateEnd)
}

/// What is between a comment and a token where no line break has to be.
fn loose_joint(right: Role) -> Joint
    ensures { joint_view result ≡ plain.loose_joint (role_view right) }
{
    if closes_up(right) {
        Joint::NothingOrLine
    } else {
        Joint::SpaceOrLine
    }
}

/// What is between a block comment and a token, by what is between that and the token
/// before.
fn after_comment(joint: Joint, right: Role) -> Joint
    ensures { joint_view result ≡ plain.after_comment (joint_view joint) (role_view right) }
{
    if let Joint::Line = joint {
        return Joint::Line;
    }
    loose_joint(right)
}

/// What is between a comment that leads and a token, by what is between the tokens before and after
/// them.
fn after_leading(joint: Joint, right: Role) -> Joint
    ensures { joint_view result ≡ plain.after_leading (joint_view joint) (role_view right) }
{
    if right.is(Role::BlockEnd) || (is_line(joint) && right.closes_bracket()) {
        return Joint::Line;
    }
    loose_joint(right)
}

/// The gap before a token.
pub(crate) fn token_gap(
    joint: Joint,
    last: Last,
    left: Role,
    right: Role,
    line_ends: usize,
    broken: Gap,
) -> Gap
    ensures { gap_view result ≡ plain.token_gap (joint_view joint)
        (last_view last) (role_view left) (role_view right) line_ends (gap_view broken) }
{
    match last {
        Last::Token => {
            if left.is(Role::Beginning) {
                return Gap::Closed;
            }
            joint_gap(joint, line_ends, broken)
        }
        Last::Comment(CommentKind::Line) => broken,
        Last::Leading => joint_gap(after_leading(joint, right), line_ends, broken),
        Last::Comment(CommentKind::Block | CommentKind::Open) => {
            joint_gap(after_comment(joint, right), line_ends, broken)
        }
    }
}

/// Whether it is a line comment.
fn is_line_comment(kind: CommentKind) -> bool
    ensures { result ≡ (comment_class kind == LineComment) }
{
    match kind {
        CommentKind::Line => true,
        CommentKind::Block | CommentKind::Open => false,
    }
}

/// The gap before a comment after a token, which belongs to the next token or does not.
fn comment_after(kind: CommentKind, left: Role, owned: bool, line_ends: usize, broken: Gap) -> Gap
    ensures { gap_view result ≡ plain.comment_after
        (comment_class kind) (role_view left) owned line_ends (gap_view broken) }
{
    if left.is(Role::Beginning) {
        return Gap::Closed;
    }
    if owned {
        return broken;
    }
    if (left.is(Role::Opening) || left.is(Role::TemplateStart)) && !is_line_comment(kind) {
        return kept(line_ends, broken, Gap::Closed);
    }
    kept(line_ends, broken, Gap::Blank)
}

/// The gap before a comment, which belongs to the next token or does not.
pub(crate) fn comment_gap(
    kind: CommentKind,
    last: Last,
    left: Role,
    owned: bool,
    line_ends: usize,
    broken: Gap,
) -> Gap
    ensures { gap_view result ≡ plain.comment_gap (comment_class kind)
        (last_view last) (role_view left) owned line_ends (gap_view broken) }
{
    match last {
        Last::Token => comment_after(kind, left, owned, line_ends, broken),
        Last::Comment(CommentKind::Line) => broken,
        Last::Leading | Last::Comment(CommentKind::Block | CommentKind::Open) => {
            kept(line_ends, broken, Gap::Blank)
        }
    }
}

/// Whether the last piece is an opening bracket.
fn is_after_opening(last: Last, left: Role) -> bool
    ensures { result ≡ plain.is_after_opening (last_view last) (role_view left) }
{
    match last {
        Last::Token => left.opens(),
        Last::Leading | Last::Comment(_) => false,
    }
}

/// A line break before such a token: an empty line of the author's stays between items, but
/// neither after an opening bracket nor before a closing one.
pub(crate) fn line_break(
    items: bool,
    last: Last,
    left: Role,
    right: Role,
    line_ends: usize,
    depth: usize,
) -> Gap
    ensures { gap_view result
        ≡ plain.line_end items (last_view last) (role_view left) (role_view right) line_ends depth }
{
    Gap::Broken {
        empty: 1 < line_ends && items && !(is_after_opening(last, left) || right.closes()),
        depth,
    }
}

/// Whether a piece after a gap begins a line.
pub(crate) fn is_at_front(gap: Gap, last: Last, left: Role) -> bool
    ensures { result ≡ plain.is_at_front (gap_view gap) (last_view last) (role_view left) }
{
    if let Gap::Broken { .. } = gap {
        return true;
    }
    match last {
        Last::Token => left.is(Role::Beginning),
        Last::Leading | Last::Comment(_) => false,
    }
}

/// Whether a comment after a gap leads.
fn leads(gap: Gap, last: Last, left: Role) -> bool
    ensures { result ≡ plain.leads (gap_view gap) (last_view last) (role_view left) }
{
    if let Gap::Broken { .. } = gap {
        return true;
    }
    match last {
        Last::Token => left.is(Role::Beginning),
        Last::Leading => true,
        Last::Comment(_) => false,
    }
}

/// What the last piece is after a comment, which is after a gap.
pub(crate) fn comment_last(gap: Gap, last: Last, left: Role, kind: CommentKind) -> Last
    ensures { last_view result ≡ plain.comment_last
        (comment_class kind) (plain.leads (gap_view gap) (last_view last) (role_view left)) }
{
    let leading = leads(gap, last, left);
    match kind {
        CommentKind::Block => {
            if leading {
                return Last::Leading;
            }
            Last::Comment(kind)
        }
        CommentKind::Line | CommentKind::Open => Last::Comment(kind),
    }
}
