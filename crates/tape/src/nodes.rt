// Nodes of the table, by their rows.
ghost use Rattle.std.specs.Prelude.{◌≡◌, ◌%◌, ◌<◌, ◌≤◌, true, length, get_or, set, []};
ghost use Rattle.tape.specs.Layout.{values};
ghost use Rattle.tape.specs.Fields.{kind_of, span_of, with_span};
ghost use Rattle.tape.specs.Rows.{end_of, Leaves, PassIs, ChildIs, ArityIs, WithinIs, LeavesIs};

use crate::fields::{kind_in, narrow, wide};
use crate::layout::{ARRAY, Node, SPAN, TAGS};

// The kind of the node in a row, and 0 behind the table.
pub fn kind(nodes: &[Node], row: usize) -> u16
    ensures { result ≡ kind_of (get_or nodes.now row []) }
{
    nodes.get(row).map_or(0, |node| kind_in(node[TAGS]))
}

// How many nodes are below it.
pub fn span(nodes: &[Node], row: usize) -> usize
    ensures { result ≡ span_of (get_or nodes.now row []) }
{
    nodes.get(row).map_or(0, |node| wide(node[SPAN]))
}

// The row behind the tree that begins in the row `at`.
pub fn end_of(nodes: &[Node], at: usize) -> usize
    ensures { result ≡ end_of nodes.now at }
{
    if nodes.len() <= at {
        return nodes.len();
    }
    (at + 1 + wide(nodes[at][SPAN])).min(nodes.len())
}

// The span of the node in a row is changed, as it must be where its children change.
pub fn set_span(nodes: &mut [Node], row: usize, span: usize)
    ensures { nodes.new
        ≡ set nodes.old row (with_span (get_or nodes.old row []) (span % values)) }
{
    if row < nodes.len() {
        nodes[row][SPAN] = narrow(span);
    }
}

// How many rows are looked at together.
pub const BLOCK: usize = 16;

// True only if none of the nodes has children. No row waits for what another one holds, so that several are looked at
// together.
pub fn childless(nodes: &[Node]) -> bool
    ensures { result ≡ true → Leaves nodes.now 0 (length nodes.now) }
{
    // an `or` is 0 only if each of its numbers is
    nodes.iter().fold(0, |spans, node| spans | node[SPAN]) == 0
}

// True only if the row is a multiple of BLOCK, BLOCK is at most `most`, and the BLOCK rows from it on are before `end`
// and hold nodes without children.
fn leaves(nodes: &[Node], row: usize, end: usize, most: usize) -> bool
    requires { (row ≤ end) × (end ≤ length nodes.now) }
    ensures { LeavesIs nodes.now row end most result }
{
    row % BLOCK == 0 && BLOCK <= most && BLOCK <= end - row && childless(&nodes[row..row + BLOCK])
}

// How many children of a node have been passed, and the row behind them.
#[derive(Clone, Copy)]
struct Reached {
    count: usize,
    row: usize,
}

// The first `most` children of the node in the row `at` are passed, or all of them if there are fewer.
fn pass(nodes: &[Node], at: usize, most: usize) -> Reached
    requires { at < length nodes.now }
    ensures { PassIs nodes.now at most result }
{
    let end = end_of(nodes, at);
    let mut row = at + 1;
    let mut count = 0;
    while row < end && count < most {
        if leaves(nodes, row, end, most - count) {
            row += BLOCK;
            count += BLOCK;
            continue;
        }
        row = end_of(nodes, row);
        count += 1;
    }
    Reached { count, row }
}

// The row of the k-th child of the node in the row `at`. If there are fewer children, the error is their number.
pub fn child(nodes: &[Node], at: usize, k: usize) -> Result<usize, usize>
    ensures { ChildIs nodes.now at k result }
{
    if nodes.len() <= at {
        return Err(0);
    }
    let Reached { row, count } = pass(nodes, at, k);
    if row < end_of(nodes, at) {
        Ok(row)
    } else {
        Err(count)
    }
}

// How many children the node in the row `at` has.
pub fn arity(nodes: &[Node], at: usize) -> usize
    ensures { ArityIs nodes.now at result }
{
    if nodes.len() <= at {
        return 0;
    }
    pass(nodes, at, nodes.len()).count
}

// Whether the tree in the row `at` nests at most `levels` containers.
pub fn within(nodes: &[Node], at: usize, levels: u32) -> bool
    ensures { WithinIs nodes.now at levels result }
{
    if nodes.len() <= at {
        return false;
    }
    if kind_in(nodes[at][TAGS]) < ARRAY {
        return true;
    }
    if levels == 0 {
        return false;
    }
    let end = end_of(nodes, at);
    let mut row = at + 1;
    while row < end {
        if !within(nodes, row, levels - 1) {
            return false;
        }
        row = end_of(nodes, row);
    }
    true
}
