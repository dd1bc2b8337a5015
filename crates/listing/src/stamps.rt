// The origins that nodes bear before the run: 0 in the document, and in the patch the number of their operation.
ghost use Rattle.listing.specs.Stamps.{StampElementsIs, StampTextsIs};

use operations::stamp;
use tape::fields::narrow;
use tape::layout;
use tape::layout::Node;
use tape::nodes::end_of;

// The trees in the rows from `start` up to `end` bear 1, 2 and so on from now on. A turn passes a whole tree, so no
// range gives the rows.
fn stamp_elements(nodes: &mut [Node], start: usize, end: usize)
    ensures { StampElementsIs nodes.old nodes.new start end }
{
    let mut row = start;
    let mut op = 0;
    while row < end {
        if nodes.len() <= row {
            return;
        }
        op += 1;
        let next = end_of(nodes, row);
        stamp(nodes, row, next - row, narrow(op));
        row = next;
    }
}

// The document, which has `used` rows, bears 0 from now on, and each element of the patch the number of its operation.
pub fn stamp_texts(nodes: &mut [Node], used: usize)
    ensures { StampTextsIs nodes.old nodes.new used }
{
    let end = end_of(nodes, layout::PATCH);
    stamp_elements(nodes, layout::PATCH + 1, end);
    stamp(nodes, layout::DOCUMENT, used, 0);
}
