// Equality of two values of the node table: SPECIFICATION 7. Types are compared first; strings are compared by their
// unescaped text, numbers by exact value, arrays in order, and objects by name in any order.
#![tactic(auto)]

ghost use Rattle.tape.specs.Lent.{lent, before};
ghost use Rattle.equality.specs.Compare.{SameLabelIs, Hints, SoughtIs, PartnerOf, EqualIs};

use decimal::same_number;
use index::{SLOTS, index_tree, lookup};
use table::find::{find, same_name};
use table::spellings;
use tape::fields::Name;
use tape::layout::{Node, Texts};
use tape::moves::load;
use tape::nodes::{end_of, span};
use tape::{fields, layout};

// Whether two nodes have the same label.
pub fn same_label<'a>(texts: Texts<'a>, a: Node, b: Node) -> bool
    ensures { SameLabelIs (lent texts) a b result }
{
    let kind = fields::kind_in(a[layout::TAGS]);
    if kind != fields::kind_in(b[layout::TAGS]) {
        return false;
    }
    if kind == layout::STRING {
        return spellings::same_spelling(texts, fields::value_of(a), fields::value_of(b));
    }
    if kind == layout::NUMBER {
        let s = spellings::part(texts, fields::value_of(a));
        let t = spellings::part(texts, fields::value_of(b));
        return same_number(s, t);
    }
    true
}

// The member of a name among the children of the node in the row `other`, which end before the row `end`. Where the
// index of the tree in the row `top` has it, nothing is searched; 0 stands for no index. No member stands behind the
// table.
fn sought<'a>(
    texts: Texts<'a>,
    nodes: &[Node],
    index: &[u16],
    top: usize,
    other: usize,
    end: usize,
    name: Name,
) -> Option<usize>
    ensures { Hints nodes.now index.now top
        → SoughtIs (before texts nodes.now) other end name result }
{
    if nodes.len() <= other {
        return None;
    }
    if top == 0 {
        return find(texts, nodes, other + 1, end, name);
    }
    let noted = lookup(texts, nodes, index, top, other, name);
    noted.or_else(|| find(texts, nodes, other + 1, end, name))
}

// Two containers whose children are compared in step. The second is in the row `other` and ends before the row `end`.
#[derive(Clone, Copy)]
pub struct Pair {
    pub top: usize,
    pub object: bool,
    pub other: usize,
    pub end: usize,
}

// The row of what the child in `row` is compared with. In an array that is what stands in the row `next`; in an
// object, the member of its name among the children of the node in the row `other`. Where both objects have the same
// order it stands in the row `next` too, so that row is tried first.
pub fn partner<'a>(
    texts: Texts<'a>,
    nodes: &[Node],
    index: &[u16],
    pair: Pair,
    row: usize,
    next: usize,
) -> Option<usize>
    ensures { Hints nodes.now index.now pair.top
        → PartnerOf (before texts nodes.now) pair row next result }
{
    if !pair.object {
        return Some(next);
    }
    let name = fields::name_of(load(nodes, row));
    if same_name(texts, name, fields::name_of(load(nodes, next))) {
        return Some(next);
    }
    sought(texts, nodes, index, pair.top, pair.other, pair.end, name)
}

// Whether the values in the rows `at` and `other` are equal. The first nests at most `levels` containers, and no object
// of the second has two members of one name. The children of both are passed in step, those of an object too: two
// containers have equally many children if both end together. `top` is the row of an indexed tree that the second is
// part of, or 0.
fn equal<'a>(
    texts: Texts<'a>,
    nodes: &[Node],
    index: &[u16],
    top: usize,
    at: usize,
    other: usize,
    levels: u32,
) -> bool
    ensures { Hints nodes.now index.now top
        → EqualIs (before texts nodes.now) at other levels result }
{
    if nodes.len() <= at {
        return false;
    }
    if nodes.len() <= other {
        return false;
    }
    if !same_label(texts, nodes[at], nodes[other]) {
        return false;
    }
    let kind = fields::kind_in(nodes[at][layout::TAGS]);
    if kind < layout::ARRAY {
        return true;
    }
    if levels == 0 {
        return false;
    }
    let end = end_of(nodes, at);
    let pair = Pair {
        top,
        object: kind == layout::OBJECT,
        other,
        end: end_of(nodes, other),
    };
    let mut row = at + 1;
    let mut next = other + 1;
    while row < end {
        if pair.end <= next {
            return false;
        }
        let Some(found) = partner(texts, nodes, index, pair, row, next) else {
            return false;
        };
        if !equal(texts, nodes, index, top, row, found, levels - 1) {
            return false;
        }
        row = end_of(nodes, row);
        next = end_of(nodes, next);
    }
    pair.end <= next
}

// A value with at least this many nodes below it is indexed before it is compared.
const INDEXED: usize = 64;

// Whether the values in the rows `at` and `other` are equal. Where the second is large it is indexed first, so that
// members are found without a search in whatever order they stand. What the index holds afterwards is free.
pub fn compare<'a>(
    texts: Texts<'a>,
    nodes: &[Node],
    index: &mut [u16],
    at: usize,
    other: usize,
    levels: u32,
) -> bool
    ensures { EqualIs (before texts nodes.now) at other levels result }
{
    if span(nodes, other) < INDEXED {
        return equal(texts, nodes, index, 0, at, other, levels);
    }
    if index.len() < SLOTS {
        return equal(texts, nodes, index, 0, at, other, levels);
    }
    index_tree(texts, nodes, index, other);
    equal(texts, nodes, index, other, at, other, levels)
}
