// The place of each node among its siblings, from 1 on. That of a node of the second text stands in the span of its
// scratch row.
ghost use Rattle.std.specs.Prelude.{◌≡◌, ◌%◌, slice_set};
ghost use Rattle.tape.specs.Layout.{values};
ghost use Rattle.counting.specs.Places.{place_row, place_at, NotedIs};

use tape::fields::narrow;
use tape::layout;
use tape::layout::Node;
use tape::moves::store;
use tape::nodes::{end_of, span};

// How many rows a scratch row is behind its node's.
pub const APART: usize = 2048;

// The place of the node in a row.
pub fn place_of(nodes: &[Node], row: usize) -> usize
    ensures { result ≡ place_at nodes.now row }
{
    if nodes.len() <= row {
        return 0;
    }
    span(nodes, row + APART)
}

// A place is noted in a scratch row.
fn note(nodes: &mut [Node], row: usize, place: usize)
    ensures { nodes.new ≡ slice_set nodes.old row (place_row (place % values)) }
{
    store(nodes, row, [0, 0, 0, 0, narrow(place), 0, 0, 0]);
}

// The places of all nodes below the one in the row `at`, which nests at most `levels` containers, are noted. For a row
// outside the second text, nothing is noted.
pub fn note_places(nodes: &mut [Node], at: usize, levels: u32)
    ensures { NotedIs nodes.old nodes.new at levels }
{
    if levels == 0 {
        return;
    }
    if at < layout::PATCH {
        return;
    }
    let end = end_of(nodes, at);
    if layout::SCRATCH < end {
        return;
    }
    if end <= at {
        return;
    }
    let mut row = at + 1;
    let mut place = 1;
    while row < end {
        note(nodes, row + APART, place);
        note_places(nodes, row, levels - 1);
        row = end_of(nodes, row);
        place += 1;
    }
}
