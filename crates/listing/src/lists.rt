// The origins of rows, put in a list.
ghost use Rattle.std.specs.Prelude.{◌≡◌, take};
ghost use Rattle.listing.specs.Lists.{entries};

use tape::layout;
use tape::layout::Node;

// The origins of the first `used` rows are put at the front of the list, or of as many as there are and have room.
pub fn list_origins(nodes: &[Node], used: usize, list: &mut [u16])
    ensures { list.new ≡ entries (take used nodes.now) list.old }
{
    let count = used.min(nodes.len()).min(list.len());
    for row in 0..count {
        list[row] = nodes[row][layout::ORIGIN];
    }
}
