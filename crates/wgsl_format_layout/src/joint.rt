//! What is between two neighbouring tokens.

ghost use Rattle.std.specs.Prelude.{◌≡◌};
ghost use Rattle.wgsl_model_tidy.specs.Joints.{stay_apart, tight_after, is_applied, is_template, is_continued, closed_up, continues_line, after_block, joint_in_line, joint_in_lines, is_between_items, joint_in_own_lines, joint};
ghost use Rattle.wgsl_format_layout.specs.View.{role_view, joint_view};
ghost use Rattle.wgsl_format_layout.specs.Kinds.{enclosing_view};

use crate::opened::Enclosing;
use crate::role::Role;

/// What is between two neighbouring tokens.
#[derive(Clone, Copy)]
pub(crate) enum Joint {
    Line,
    Nothing,
    Space,
    /// Nothing, or the line break that the author put there.
    NothingOrLine,
    /// A space, or the line break that the author put there.
    SpaceOrLine,
}

/// Whether two that could be closed up stay apart.
fn stay_apart(left: Role, right: Role) -> bool
    ensures { result ≡ stay_apart (role_view left) (role_view right) }
{
    (left.is(Role::Minus) && right.is(Role::Minus))
        || (left.is(Role::Ampersand) && right.is(Role::Ampersand))
}

/// Whether nothing is after the left one.
fn tight_after(left: Role, right: Role) -> bool
    ensures { result ≡ tight_after (role_view left) (role_view right) }
{
    left.is(Role::Opening)
        || left.is(Role::At)
        || (left.is(Role::Period) && right.is(Role::Name))
        || (left.wants_operand() && right.begins_operand() && !stay_apart(left, right))
}

/// Whether the right one is the `(` of arguments or the `[` of an index.
fn is_applied(left: Role, right: Role) -> bool
    ensures { result ≡ is_applied (role_view left) (role_view right) }
{
    right.is(Role::Opening) && (left.ends_operand() || left.is(Role::Attribute))
}

/// Whether the right one is a bracket of a template list that belongs to the left one.
fn is_template(left: Role, right: Role) -> bool
    ensures { result ≡ is_template (role_view left) (role_view right) }
{
    (right.is(Role::TemplateStart) && (left.is(Role::Name) || left.is(Role::Word)))
        || (right.is(Role::TemplateEnd) && (left.ends_operand() || left.is(Role::Comma)))
}

/// Whether the right one is a `.` after an operand that does not go on with it, or `++` or `--`
/// after an operand other than a number.
fn is_continued(left: Role, right: Role) -> bool
    ensures { result ≡ is_continued (role_view left) (role_view right) }
{
    left.ends_operand()
        && ((right.is(Role::Period) && !left.is(Role::Unsuffixed))
            || (right.is(Role::Step) && !(left.is(Role::Number) || left.is(Role::Unsuffixed))))
}

/// Whether two neighbours are closed up.
pub(crate) fn closed_up(left: Role, right: Role) -> bool
    ensures { result ≡ closed_up (role_view left) (role_view right) }
{
    right.is_tight()
        || tight_after(left, right)
        || is_applied(left, right)
        || is_template(left, right)
        || is_continued(left, right)
}

/// Whether a line break of the author's stays after one that is not closed up with the next.
fn goes_on(left: Role) -> bool
    ensures { result ≡ continues_line (role_view left) }
{
    left.is(Role::Comma) || left.is(Role::Attribute)
}

/// What is after `}`; a `;` of the author's may be in a line of its own.
fn after_block(right: Role) -> Joint
    ensures { joint_view result ≡ after_block (role_view right) }
{
    if right.is(Role::ElseWord) {
        Joint::Space
    } else if right.is(Role::Semicolon) {
        Joint::NothingOrLine
    } else if right.is_tight() {
        Joint::Nothing
    } else {
        Joint::Line
    }
}

/// What is between two neighbours in a bracket in one line.
fn joint_in_line(left: Role, right: Role) -> Joint
    ensures { joint_view result ≡ joint_in_line (role_view left) (role_view right) }
{
    if closed_up(left, right) {
        Joint::Nothing
    } else {
        Joint::Space
    }
}

/// What is between two neighbours in no bracket.
fn joint_in_lines(left: Role, right: Role) -> Joint
    ensures { joint_view result ≡ joint_in_lines (role_view left) (role_view right) }
{
    if left.is(Role::BlockStart) {
        if right.is(Role::BlockEnd) {
            Joint::Nothing
        } else {
            Joint::Line
        }
    } else if left.is(Role::ItemEnd) {
        if right.is(Role::Semicolon) {
            Joint::NothingOrLine
        } else {
            Joint::Line
        }
    } else if right.is(Role::BlockEnd) {
        Joint::Line
    } else if left.is(Role::BlockEnd) {
        after_block(right)
    } else if right.is(Role::BlockStart) {
        Joint::Space
    } else if closed_up(left, right) {
        Joint::Nothing
    } else if goes_on(left) {
        Joint::SpaceOrLine
    } else {
        Joint::Space
    }
}

/// Whether an item ends and another begins.
pub(crate) fn is_between_items(left: Role, right: Role) -> bool
    ensures { result ≡ is_between_items (role_view left) (role_view right) }
{
    (left.is(Role::Comma) || left.is(Role::Semicolon)) && !closed_up(left, right)
}

/// What is between two neighbours in a bracket in lines of its own, with this between items.
fn joint_in_own_lines(between_items: Joint, left: Role, right: Role) -> Joint
    ensures { joint_view result ≡ joint_in_own_lines
        (joint_view between_items) (role_view left) (role_view right) }
{
    if left.opens_bracket() || right.closes_bracket() {
        Joint::Line
    } else if is_between_items(left, right) {
        between_items
    } else {
        joint_in_line(left, right)
    }
}

/// What is between two neighbours, by what they are in.
pub(crate) fn joint_of(enclosing: Enclosing, left: Role, right: Role) -> Joint
    ensures { joint_view result
        ≡ joint (enclosing_view enclosing) (role_view left) (role_view right) }
{
    match enclosing {
        Enclosing::NoBracket => joint_in_lines(left, right),
        Enclosing::OneLine => joint_in_line(left, right),
        Enclosing::OwnLines | Enclosing::FilledLines => {
            joint_in_own_lines(Joint::SpaceOrLine, left, right)
        }
        Enclosing::ItemLines => joint_in_own_lines(Joint::Line, left, right),
    }
}
