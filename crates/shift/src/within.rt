// A value moved within one array. Its rows change places with those between where it stands and where it is to stand:
// no row's span changes, and no limit is exceeded. This is the quick way. Where it is not taken, nothing changes.
ghost use Rattle.std.specs.Prelude.{◌≡◌, ◌+◌, ◌-◌, ◌≤◌};
ghost use Rattle.tape.specs.Lent.{before, lent};
ghost use Rattle.shift.specs.Shift.{exchanged_back, exchanged_front, TurnIs, ChildShiftIs};
ghost use Rattle.shift.specs.Shift.{PairAt, Paired, ShiftIs};

use changes::size;
use pointer::{First, Token, first, token, token_part};
use spec::limits;
use table::spellings::part;
use tape::fields::{Name, Spelling, name_of};
use tape::layout;
use tape::layout::{Node, Texts};
use tape::moves::{load, slide};
use tape::nodes::{end_of, kind};
use text::same_text;
use walk::{step, token_name};

// Rows change places with those behind them: the `count` rows from `at` on, and the `between` rows that follow.
fn exchange_back(nodes: &mut [Node], at: usize, count: usize, between: usize)
    requires { at + count + between ≤ 2048 }
    ensures { nodes.new ≡ exchanged_back nodes.old at count between }
{
    slide(nodes, layout::SCRATCH, at, count);
    slide(nodes, at, at + count, between);
    slide(nodes, at + between, layout::SCRATCH, count);
}

// Rows change places with those before them: the `count` rows from `at` on, and those from `to` up to `at`. One function
// for both directions would be told the places of both runs before and after, and so be no plainer.
fn exchange_front(nodes: &mut [Node], at: usize, count: usize, to: usize)
    requires { (at + count ≤ 2048) × (to ≤ at) }
    ensures { nodes.new ≡ exchanged_front nodes.old at count to }
{
    slide(nodes, layout::SCRATCH, at, count);
    slide(nodes, to + count, to, at - to);
    slide(nodes, to, layout::SCRATCH, count);
}

// The tree in the row `at` is moved to the place of its sibling in the row `to`. Behind the rows in use nothing moves.
fn turn(nodes: &mut [Node], used: usize, at: usize, to: usize) -> bool
    requires { used ≤ 2048 }
    ensures { TurnIs nodes.old nodes.new used at to result }
{
    let count = size(nodes, at);
    if used < at {
        return false;
    }
    if used - at < count {
        return false;
    }
    if to <= at {
        exchange_front(nodes, at, count, to);
        return true;
    }
    let end = end_of(nodes, to);
    if used < end {
        return false;
    }
    if end < at + count {
        return false;
    }
    exchange_back(nodes, at, count, end - (at + count));
    true
}

// Two children of the node in the row `parent`, by the tokens that name them.
#[derive(Clone, Copy)]
pub struct Pair {
    pub parent: usize,
    pub token: Name,
    pub other: Name,
}

// The first of a pair, if they are elements of an array, is moved to the place of the other.
fn shift<'a>(texts: Texts<'a>, nodes: &mut [Node], used: usize, pair: Pair) -> bool
    requires { used ≤ 2048 }
    ensures { ChildShiftIs (before texts nodes.old) nodes.new used pair result }
{
    if kind(nodes, pair.parent) != layout::ARRAY {
        return false;
    }
    let Ok(at) = step(texts, nodes, pair.parent, pair.token) else {
        return false;
    };
    let Ok(to) = step(texts, nodes, pair.parent, pair.other) else {
        return false;
    };
    // an element has no name
    if name_of(load(nodes, at)).text.form != layout::NO_TEXT {
        return false;
    }
    turn(nodes, used, at, to)
}

// The pair that two pointers name, by the last token of the one and a token of the other.
fn last_pair<'a>(
    texts: Texts<'a>,
    row: usize,
    token: Name,
    path: Spelling,
    at: usize,
    last: Token,
) -> Option<Pair>
    ensures { PairAt (lent texts) row token path at last result }
{
    let other = token_name(texts, path, at, last);
    match last {
        Token::Last { .. } => Some(Pair {
            parent: row,
            token,
            other,
        }),
        Token::Next { .. } => None,
    }
}

// The pair that two pointers name, each from a place on, if all their tokens but the last are the same.
fn siblings<'a>(
    texts: Texts<'a>,
    nodes: &[Node],
    from: Spelling,
    start: usize,
    path: Spelling,
    other: usize,
) -> Option<Pair>
    ensures { Paired (before texts nodes.now) from path start other 0 result }
{
    let a = part(texts, from);
    let b = part(texts, path);
    let mut row = layout::DOCUMENT;
    let mut i = start;
    let mut j = other;
    loop {
        let s = token(a, i);
        let t = token(b, j);
        let name = token_name(texts, from, i, s);
        let Token::Next { next, .. } = s else {
            return last_pair(texts, row, name, path, j, t);
        };
        let Token::Next { next: after, .. } = t else {
            return None;
        };
        if !same_text(3, token_part(a, i, s), 3, token_part(b, j, t)) {
            return None;
        }
        let child = step(texts, nodes, row, name).ok()?;
        row = child;
        i = next;
        j = after;
    }
}

// Whether a text ends in a digit, as an index does. This is a guess, asked first: other moves are not tried in vain.
fn ends_in_digit(s: &[u8]) -> bool {
    matches!(s, [.., b'0'..=b'9'])
}

// The value at `from` is moved to `path`, if both name elements of one array.
pub fn shift_within<'a>(
    texts: Texts<'a>,
    nodes: &mut [Node],
    used: usize,
    from: Spelling,
    path: Spelling,
) -> bool
    ensures { ShiftIs (before texts nodes.old) nodes.new used from path result }
{
    if limits::MAX_NODES < used {
        return false;
    }
    let a = part(texts, from);
    let b = part(texts, path);
    if !ends_in_digit(b) {
        return false;
    }
    let First::At(i) = first(a) else {
        return false;
    };
    let First::At(j) = first(b) else {
        return false;
    };
    let Some(pair) = siblings(texts, nodes, from, i, path, j) else {
        return false;
    };
    shift(texts, nodes, used, pair)
}
