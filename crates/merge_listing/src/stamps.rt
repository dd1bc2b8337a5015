// The origins that nodes bear before the merge: 0 in the document, and 1 in the patch. T-11: "A merge patch counts
// as operation 1".
ghost use Rattle.std.specs.Prelude.{◌≡◌, length};
ghost use Rattle.tape.specs.Layout.{rows};
ghost use Rattle.merge_listing.specs.Stamps.{StampBothIs};

use operations::stamp;
use tape::layout;
use tape::layout::Node;
use tape::nodes::end_of;

// The origin of all that the merge puts in.
const MERGED: u16 = 1;

// The document, which has `used` rows, bears 0 from now on, and the patch 1.
pub fn stamp_both(nodes: &mut [Node], used: usize)
    requires { length nodes.old ≡ rows }
    ensures { StampBothIs nodes.old nodes.new used }
{
    let end = end_of(nodes, layout::PATCH);
    stamp(nodes, layout::PATCH, end - layout::PATCH, MERGED);
    stamp(nodes, layout::DOCUMENT, used, 0);
}
