//! What comes next in a line, and whether it fits.

ghost use Rattle.std.specs.Prelude.{◌≡◌, ℕ, ◌+◌, ◌-◌, ◌≤◌, ◌<◌, ◌==◌, ◌&&◌, ◌||◌, not, true, false, Bool, List, ◌∷◌, ◌++◌, if◌then◌else◌, nat_lt, nat_le, suc, length};
ghost use Rattle.std.specs.List.{list_any, before_first, position_or_len};
ghost use Rattle.wgsl_model_tidy.specs.Roles.{ends_operands, opens, closes, is_literal, binary, comma, minus, prefix, is};
ghost use Rattle.wgsl_model_tidy.specs.Ahead as plain;
ghost use Rattle.wgsl_model_tidy.specs.Ahead.{Ahead};
ghost use Rattle.wgsl_model_tidy.specs.LaidOut as laid;
ghost use Rattle.wgsl_format_layout.specs.View.{role_view};
ghost use Rattle.wgsl_format_layout.specs.Layouts.{layout_view};
ghost use Rattle.wgsl_format_layout.specs.Walks.{AreMatched, begins_several, Follow, GoesPast, EndsLine, is_weaker, passed, IsChain};

use crate::layout::Layout;
use crate::marks::{Mark, MarkedToken};
use crate::role::Role;

/// How many commas a table has at least.
const TABLE: usize = 16;

/// Operands, after the first token of theirs.
#[derive(Clone, Copy)]
pub struct Chain {
    /// The place where they end.
    pub end: usize,
    /// How the operators between them bind that bind weakest, or 0.
    pub weakest: u8,
    /// The place of the last of these operators.
    pub operator: usize,
    /// The place of the last token that is in no bracket of theirs.
    pub last: usize,
}

/// A line of the author's in a bracket, up to a place.
#[derive(Clone, Copy)]
struct Row {
    /// The place of its first token.
    first: usize,
    /// Whether it has two items at least.
    has_several: bool,
}

impl Row {
    fn new(first: usize) -> Row
        ensures first { result.first ≡ first }
        ensures several { result.has_several ≡ false }
    {
        Row {
            first,
            has_several: false,
        }
    }

    /// How many rows it is.
    fn count(self) -> usize
        ensures { result ≡ (if self.has_several then 1 else 0) }
    {
        usize::from(self.has_several)
    }

    /// Goes on with a token at a place, with which an item begins or does not.
    fn with(self, place: usize, item: bool) -> Row
        ensures first { result.first ≡ self.first }
        ensures several { result.has_several
            ≡ (self.has_several || (item && nat_lt self.first place)) }
    {
        Row {
            first: self.first,
            has_several: self.has_several || (item && self.first < place),
        }
    }
}

impl Mark {
    /// Whether what is from here to another end is in one line, and the line is not too long that
    /// has this at a column.
    pub(crate) fn fits(self, layout: Layout, column: usize, to: Mark) -> bool
        ensures { result ≡ (self.breaks == to.breaks
            && plain.is_within (layout_view layout) (column + (to.column - self.column))) }
    {
        let columns = to.column.saturating_sub(self.column);
        self.breaks == to.breaks && layout.is_within(column, columns)
    }
}

impl MarkedToken {
    /// Where it begins.
    pub(crate) fn start(self) -> Mark
        ensures column { result.column ≡ self.end.column - self.width }
        ensures breaks { result.breaks ≡ self.end.breaks }
    {
        Mark {
            column: self.end.column.saturating_sub(self.width),
            breaks: self.end.breaks,
        }
    }

    /// Whether a line goes on with it where what is before it ends.
    fn is_in_line(self) -> bool
        ensures { result ≡ not (self.before.ends
            || (closes (role_view self.role) || is (role_view self.role) binary)) }
    {
        !(self.before.ends || self.role.closes() || self.role.is(Role::Binary))
    }

    /// Whether a line of the author's begins with it, and an item.
    fn begins_line(self) -> bool
        ensures { result ≡ (self.item && (self.before.below || self.before.ends)) }
    {
        self.item && (self.before.below || self.before.ends)
    }

    /// Whether it is in a table: a name or a number, its sign, or a comma.
    fn is_plain(self) -> bool
        ensures { result ≡ (is_literal (role_view self.role) || (is (role_view self.role) comma
            || (is (role_view self.role) minus || is (role_view self.role) prefix))) }
    {
        self.role.is_literal()
            || self.role.is(Role::Comma)
            || self.role.is(Role::Minus)
            || self.role.is(Role::Prefix)
    }

    /// Whether two tokens are in a bracket, or a comment that ends a line, where it and the next
    /// one are after the token that opens the bracket.
    fn begins_several(self, next: MarkedToken) -> bool
        ensures { result ≡ begins_several self next }
    {
        self.before.ends
            || (!self.role.closes()
                && (next.before.ends || self.role.opens() || !next.role.closes()))
    }

    /// Whether it is an operator that binds so strongly at most.
    fn binds_within(self, limit: u8) -> bool
        ensures { result ≡ (nat_lt 0 self.binds && nat_le self.binds limit) }
    {
        0 < self.binds && self.binds <= limit
    }

    /// Whether operands of operators that bind stronger end with it.
    fn ends_chain(self, limit: u8) -> bool
        ensures { result ≡ (ends_operands (role_view self.role)
            || (nat_lt 0 self.binds && nat_le self.binds limit)) }
    {
        self.role.ends_operands() || self.binds_within(limit)
    }
}

/// The place after a token, or after what it opens.
pub(crate) fn after(tokens: &[MarkedToken], place: usize) -> usize
    requires closed { AreMatched tokens.now }
    requires place { place < length tokens.now }
    ensures later { place < result }
    ensures within { result ≤ length tokens.now }
    ensures next { (before : _) (n : ℕ) (t : Ahead) (ts : List Ahead)
        → Follow before place tokens.now n (t ∷ ts) → closes t.role ≡ false
        → GoesPast place tokens.now n ts result }
{
    let close = tokens[place].close;
    if close < tokens.len() {
        close + 1
    } else {
        close
    }
}

/// Whether a bracket may be in lines of its own that a token at a place opens: it has two tokens at
/// least, or a comment that ends a line.
pub(crate) fn has_several(tokens: &[MarkedToken], place: usize) -> bool
    requires { place < length tokens.now }
    ensures { (before : _) (n : ℕ) (t : Ahead) (ts : List Ahead)
        → Follow before place tokens.now n (t ∷ ts) → result ≡ plain.has_several ts }
{
    place + 2 < tokens.len() && tokens[place + 1].begins_several(tokens[place + 2])
}

/// Whether a token at a place opens a bracket that may be in lines of its own.
pub(crate) fn is_several(tokens: &[MarkedToken], place: usize) -> bool
    requires { place < length tokens.now }
    ensures { (before : _) (n : ℕ) (t : Ahead) (ts : List Ahead)
        → Follow before place tokens.now n (t ∷ ts) → result ≡ t.several }
{
    tokens[place].role.opens_bracket() && has_several(tokens, place)
}

impl Chain {
    /// Operands of operators that bind stronger than a limit, with their first token at a place.
    pub(crate) fn new(tokens: &[MarkedToken], limit: u8, first: usize) -> Chain
        requires closed { AreMatched tokens.now }
        requires first { first < length tokens.now }
        ensures within { result.end ≤ length tokens.now }
        ensures operator { result.operator < length tokens.now }
        ensures last { result.last < length tokens.now }
        ensures chain { (before : _) (n : ℕ) (t : Ahead) (ts : List Ahead)
            → Follow before first tokens.now n (t ∷ ts) → closes t.role ≡ false
            → IsChain n limit first ts result }
    {
        let mut chain = Chain {
            end: after(tokens, first),
            weakest: 0,
            operator: first,
            last: first,
        };
        'tokens: while chain.end < tokens.len() && !tokens[chain.end].ends_chain(limit) {
            let next = after(tokens, chain.end);
            chain = chain.pass(tokens[chain.end].binds, next);
        }
        chain
    }

    /// Whether a token that binds so is the operator that binds weakest, after those so far.
    fn is_weaker(self, binds: u8) -> bool
        ensures { result ≡ is_weaker self binds }
    {
        binds != 0 && (self.weakest == 0 || binds <= self.weakest)
    }

    /// Goes past a token that binds so, from the place where they end so far to the next one.
    fn pass(self, binds: u8, next: usize) -> Chain
        ensures { result ≡ passed self binds next }
    {
        let last = self.end;
        if self.is_weaker(binds) {
            return Chain {
                end: next,
                weakest: binds,
                operator: last,
                last,
            };
        }
        Chain {
            end: next,
            last,
            ..self
        }
    }

    /// Whether operands, after the end of a token that is at a column, are in its line up to the
    /// bracket at their end, which is opened since the last of them does not fit in a line that
    /// begins at another column.
    pub(crate) fn opens_last(
        self,
        tokens: &[MarkedToken],
        layout: Layout,
        before: Mark,
        column: usize,
        inner: usize,
    ) -> bool
        requires operator { self.operator < length tokens.now }
        requires last { self.last < length tokens.now }
        requires end { self.end ≤ length tokens.now }
        ensures { (k n limit first depth : ℕ) (ts : List Ahead)
            → Follow before (suc first) tokens.now k ts → IsChain n limit first ts self
            → 0 < self.weakest → laid.line_column (layout_view layout) depth ≡ inner
            → result ≡ laid.opens_last (layout_view layout) n limit self.weakest depth column ts }
    {
        if !is_several(tokens, self.last) {
            return false;
        }
        if !before.fits(layout, column, tokens[self.last].end) {
            return false;
        }
        let operator = tokens[self.operator];
        let end = line_end(tokens, operator.end, self.operator + 1, self.end);
        !operator.start().fits(layout, inner, end)
    }
}

/// The place where operands end, from a place on.
pub(crate) fn chain_end(tokens: &[MarkedToken], from: usize) -> usize
    requires { AreMatched tokens.now }
    ensures within { from ≤ length tokens.now → result ≤ length tokens.now }
    ensures end { (before : _) (n : ℕ) (ts : List Ahead) → Follow before from tokens.now n ts
        → result ≡ from + position_or_len (plain.ends_chain n 0) ts }
{
    let mut place = from;
    'tokens: while place < tokens.len() && !tokens[place].ends_chain(0) {
        place = after(tokens, place);
    }
    place
}

/// Whether an operator is between operands, from a place on.
pub(crate) fn has_operator(tokens: &[MarkedToken], from: usize) -> bool
    requires { AreMatched tokens.now }
    ensures { (before : _) (n : ℕ) (ts : List Ahead) → Follow before from tokens.now n ts
        → result ≡ list_any (λ t. t.level == n && not (t.binds == 0))
        (before_first (plain.ends_chain n 0) ts) }
{
    let mut place = from;
    'tokens: while place < tokens.len() && !tokens[place].ends_chain(0) {
        if tokens[place].binds != 0 {
            return true;
        }
        place = after(tokens, place);
    }
    false
}

/// Whether what follows a bracket in its line is not counted from a token at a place on: an item
/// ends, a bracket opens that may be in lines of its own, or an operator binds so strongly at most.
fn ends_part(tokens: &[MarkedToken], limit: u8, place: usize) -> bool
    requires { place < length tokens.now }
    ensures { (before : _) (n : ℕ) (t : Ahead) (ts : List Ahead)
        → Follow before place tokens.now n (t ∷ ts) → result ≡ plain.ends_part n limit t }
{
    let token = tokens[place];
    token.role.ends_item() || is_several(tokens, place) || token.binds_within(limit)
}

/// The place from which on what follows a bracket in its line is not counted, from a place on.
pub(crate) fn part_end(tokens: &[MarkedToken], limit: u8, from: usize) -> usize
    requires { AreMatched tokens.now }
    ensures within { from ≤ length tokens.now → result ≤ length tokens.now }
    ensures end { (before : _) (n : ℕ) (ts : List Ahead) → Follow before from tokens.now n ts
        → result ≡ from + position_or_len (plain.ends_part n limit) ts }
{
    let mut place = from;
    'tokens: while place < tokens.len() && !ends_part(tokens, limit, place) {
        place = after(tokens, place);
    }
    place
}

/// The end of the line in which what is from one place to another is, after the end of a token.
pub(crate) fn line_end(tokens: &[MarkedToken], last: Mark, from: usize, end: usize) -> Mark
    requires { end ≤ length tokens.now }
    ensures { (ends : Ahead → Bool) (n : ℕ) (ts : List Ahead) → Follow last from tokens.now n ts
        → end ≡ from + position_or_len ends ts → EndsLine ends last ts result }
{
    if end < tokens.len() && tokens[end].is_in_line() {
        return tokens[end].end;
    }
    if from < end {
        tokens[end - 1].end
    } else {
        last
    }
}

/// Whether a comma is after the last item of a bracket.
pub(crate) fn ends_with_comma(tokens: &[MarkedToken], opening: usize) -> bool
    requires closed { AreMatched tokens.now }
    requires opening { opening < length tokens.now }
    ensures { (before : _) (n : ℕ) (t : Ahead) (ts : List Ahead)
        → Follow before opening tokens.now n (t ∷ ts) → opens t.role ≡ true
        → result ≡ plain.last_passes (λ u. is u.role comma) (plain.content (suc n) ts) }
{
    let last = tokens[opening].close.saturating_sub(1);
    tokens[last].role.is(Role::Comma)
}

/// Whether a line of a bracket that goes up to a place is no row, or fits where lines begin at a
/// column.
fn row_fits(tokens: &[MarkedToken], layout: Layout, column: usize, row: Row, end: usize) -> bool
    requires first { row.has_several ≡ true → row.first < end }
    requires end { end ≤ length tokens.now }
    ensures { (before : _) (n : ℕ) (us vs : List Ahead)
        → Follow before row.first tokens.now n (us ++ vs) → end ≡ row.first + length us
        → result ≡ (not row.has_several
        || plain.fits (layout_view layout) plain.never column (plain.at_front us)) }
{
    if !row.has_several {
        return true;
    }
    let start = tokens[row.first].start();
    start.fits(layout, column, tokens[end - 1].end)
}

/// Whether a bracket has two rows at least, and all fit in lines that begin at a column: lines of
/// the author's that begin with an item, of two items at least.
pub(crate) fn keeps_rows(
    tokens: &[MarkedToken],
    layout: Layout,
    column: usize,
    opening: usize,
) -> bool
    requires closed { AreMatched tokens.now }
    requires opening { opening < length tokens.now }
    ensures { (before : _) (n : ℕ) (t : Ahead) (ts : List Ahead)
        → Follow before opening tokens.now n (t ∷ ts) → opens t.role ≡ true
        → result ≡ plain.keeps_rows (layout_view layout) (suc n) column ts }
{
    let close = tokens[opening].close;
    let mut rows = 0;
    let mut row = Row::new(opening + 1);
    let mut place = opening + 1;
    'tokens: while place < close {
        let token = tokens[place];
        if token.begins_line() {
            if !row_fits(tokens, layout, column, row, place) {
                return false;
            }
            rows += row.count();
            row = Row::new(place);
        } else {
            row = row.with(place, token.item);
        }
        place = after(tokens, place);
    }
    row_fits(tokens, layout, column, row, close) && rows + row.count() > 1
}

/// Whether a bracket is a table: it has many items, names and numbers, with a sign or without.
pub(crate) fn is_table(tokens: &[MarkedToken], opening: usize) -> bool
    requires closed { AreMatched tokens.now }
    requires opening { opening < length tokens.now }
    ensures { (before : _) (n : ℕ) (t : Ahead) (ts : List Ahead)
        → Follow before opening tokens.now n (t ∷ ts) → opens t.role ≡ true
        → result ≡ plain.is_table (suc n) ts }
{
    let mut commas = 0;
    'tokens: for place in opening + 1..tokens[opening].close {
        let token = tokens[place];
        if !token.is_plain() {
            return false;
        }
        if token.role.is(Role::Comma) {
            commas += 1;
        }
    }
    TABLE <= commas
}
