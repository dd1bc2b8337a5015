// A tree put among the children of a node, and taken out.
ghost use Rattle.std.specs.Prelude.{◌≡◌, [], ◌+◌, ◌≤◌, ◌<◌, get_or};
ghost use Rattle.tape.specs.Layout.{values};
ghost use Rattle.tape.specs.Fields.{span_of};
ghost use Rattle.changes.specs.Rows.{renamed_at, resized};
ghost use Rattle.changes.specs.Change.{PutIs, TakeOutIs};

use crate::parent::Parent;
use spec::limits;
use spec::refusal::{Fault, Refusal};
use tape::fields::{Cell, Name, cell_of, node_of, wide};
use tape::layout::Node;
use tape::{layout, moves, nodes};

// How many nodes are below the one in a row, and 0 behind the table. The `span` of tape says the same without the bound,
// and with that one the proofs of the sums below did not close.
fn span(nodes: &[Node], row: usize) -> usize
    ensures { (result ≡ span_of (get_or nodes.now row [])) × (result < values) }
{
    if nodes.len() <= row {
        return 0;
    }
    wide(nodes[row][layout::SPAN])
}

// How many rows the tree in a row has.
pub fn size(nodes: &[Node], row: usize) -> usize
    ensures { result ≡ span_of (get_or nodes.now row []) + 1 }
{
    span(nodes, row) + 1
}

// The node in a row gets another name.
fn rename(nodes: &mut [Node], row: usize, name: Name)
    ensures { nodes.new ≡ renamed_at nodes.old row name }
{
    let node = moves::load(nodes, row);
    let new = Cell {
        name,
        ..cell_of(node)
    };
    moves::store(nodes, row, node_of(new, wide(node[layout::SPAN])));
}

// The span of the node in `row` changes by as much as the document's rows do. No document has more than 2,048.
pub fn resize(nodes: &mut [Node], row: usize, used: usize, then: usize)
    requires { then ≤ 2048 }
    ensures { nodes.new ≡ resized nodes.old row used then }
{
    let new = (span(nodes, row) + then).saturating_sub(used);
    nodes::set_span(nodes, row, new);
}

// Among the parent's children, those in the `removed` rows from `at` on are replaced by the tree in the row `source`,
// under `name`. The limits are judged before anything moves.
pub fn put(
    nodes: &mut [Node],
    parent: Parent,
    at: usize,
    removed: usize,
    source: usize,
    name: Name,
) -> Result<usize, Fault>
    ensures { PutIs nodes.old nodes.new parent at removed source name result }
{
    if !nodes::within(nodes, source, parent.below) {
        return Err(Refusal::TooDeep.at(0));
    }
    let count = size(nodes, source);
    let kept = parent.used.saturating_sub(removed);
    if limits::MAX_NODES - kept < count {
        return Err(Refusal::TooManyNodes.at(0));
    }
    // where the table holds no document, the children may lie elsewhere
    if kept < at {
        return Err(Refusal::LocationMissing.at(0));
    }
    moves::splice(nodes, parent.used, at, removed, source, count);
    rename(nodes, at, name);
    resize(nodes, parent.row, parent.used, kept + count);
    Ok(kept + count)
}

// The tree in the row `at`, a child of the parent, is taken out.
pub fn take_out(nodes: &mut [Node], parent: Parent, at: usize) -> Result<usize, Fault>
    ensures { TakeOutIs nodes.old nodes.new parent at result }
{
    let removed = size(nodes, at);
    let left = parent.used.saturating_sub(removed);
    moves::splice(nodes, parent.used, at, removed, parent.used, 0);
    resize(nodes, parent.row, parent.used, left);
    Ok(left)
}
