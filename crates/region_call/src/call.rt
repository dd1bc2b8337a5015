// The call.
ghost use Rattle.json_patch.specs.Call.{given, memory_before, memory_after};
ghost use Rattle.region_call.specs.Call.{ApplyWithinIs};

use crate::stages::checked_within;
use index;
use json_patch::{Answer, clear, refusal_answer, suffices};
use spec::refusal::Refusal;
use tape::layout;
use tape::layout::Node;

// The patch of a maker is applied to the document within a region, which is a pointer's text in UTF-8, and the result
// written to `output`, or the call is refused. `nodes` and `index` are the work area, as in the plain call.
pub fn apply_within<'a>(
    document: &'a [u8],
    patch: &'a [u8],
    region: &[u8],
    output: &mut [u8],
    nodes: &mut [Node],
    index: &mut [u16],
) -> Answer
    ensures { ApplyWithinIs (given document.now patch.now) region.now (memory_before output.old nodes.old index.old)
        (memory_after output.new nodes.new index.new) result }
{
    if !suffices(nodes, index) {
        return refusal_answer(Refusal::WorkTooShort, 0, 0, 0);
    }
    let done = checked_within(
        [document, patch],
        region,
        output,
        &mut nodes[..layout::ROWS],
        &mut index[..index::SLOTS],
    );
    clear(nodes, index);
    Answer::from(done)
}
