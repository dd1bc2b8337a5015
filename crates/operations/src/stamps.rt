// Nodes that get another origin: SPECIFICATION 19.1, T-11.
ghost use Rattle.std.specs.Prelude.{◌≡◌};
ghost use Rattle.operations.specs.Stamp.{stamped, StampAsideIs};

use changes::size;
use tape::layout;
use tape::layout::Node;

// The nodes in `count` rows from the row `start` on, or in as many as there are, bear an origin from now on.
pub fn stamp(nodes: &mut [Node], start: usize, count: usize, origin: u16)
    ensures { nodes.new ≡ stamped nodes.old start count origin }
{
    let end = start.saturating_add(count).min(nodes.len());
    for row in start..end {
        nodes[row][layout::ORIGIN] = origin;
    }
}

// The tree in the scratch rows bears an origin from now on.
pub fn stamp_aside(nodes: &mut [Node], origin: u16)
    ensures { StampAsideIs nodes.old nodes.new origin }
{
    let count = size(nodes, layout::SCRATCH);
    stamp(nodes, layout::SCRATCH, count, origin);
}
