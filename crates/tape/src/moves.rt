// Nodes moved in the table. Each public function is total: where the numbers do not fit the table, nothing changes.
ghost use Rattle.std.specs.Prelude.{◌≡◌, ◌+◌, ◌<◌, ◌≤◌, length, get_or, set};
ghost use Rattle.std.specs.Bool.{MatchBool};
ghost use Rattle.tape.specs.Layout.{rows};
ghost use Rattle.tape.specs.Fields.{no_node};
ghost use Rattle.tape.specs.Columns.{moved, spliced, wiped};

use crate::layout::{NO_NODE, Node, ROWS};

// The node in a row, and none behind the table.
pub fn load(nodes: &[Node], row: usize) -> Node
    ensures { result ≡ get_or nodes.now row no_node }
{
    nodes.get(row).copied().unwrap_or(NO_NODE)
}

pub fn store(nodes: &mut [Node], row: usize, node: Node)
    ensures { nodes.new ≡ set nodes.old row node }
{
    if row < nodes.len() {
        nodes[row] = node;
    }
}

// Whether there are `count` rows from `at` on.
fn inside(nodes: &[Node], at: usize, count: usize) -> bool
    ensures { MatchBool result (at + count ≤ length nodes.now) (length nodes.now < at + count) }
{
    count <= nodes.len() && at <= nodes.len() - count
}

// `count` rows from `start` on are made rows without a node.
pub fn clear(nodes: &mut [Node], start: usize, count: usize)
    ensures { nodes.new ≡ wiped nodes.old start count }
{
    if inside(nodes, start, count) {
        for node in &mut nodes[start..start + count] {
            *node = NO_NODE;
        }
    }
}

// All rows are made rows without a node.
pub fn wipe(nodes: &mut [Node])
    ensures { nodes.new ≡ wiped nodes.old 0 rows }
{
    clear(nodes, 0, ROWS);
}

// `count` nodes from `start` on are copied to the rows from `to` on; the two runs may overlap.
pub fn slide(nodes: &mut [Node], to: usize, start: usize, count: usize)
    ensures { nodes.new ≡ moved nodes.old to start count }
{
    if to != start && inside(nodes, to, count) && inside(nodes, start, count) {
        nodes.copy_within(start..start + count, to);
    }
}

// In the first `used` nodes, `removed` nodes at `at` are replaced by `count` nodes from `source`, which lies behind
// all that are in use before and after.
pub fn splice(
    nodes: &mut [Node],
    used: usize,
    at: usize,
    removed: usize,
    source: usize,
    count: usize,
)
    ensures { nodes.new ≡ spliced nodes.old used at removed source count }
{
    let Some(kept) = used.checked_sub(removed) else {
        return;
    };
    if kept < at || source < used || source - kept < count || !inside(nodes, source, count) {
        return;
    }
    slide(nodes, at + count, at + removed, kept - at);
    slide(nodes, at, source, count);
}
