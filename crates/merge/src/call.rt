// The call.
ghost use Rattle.json_patch.specs.Call.{given, memory_before, memory_after};
ghost use Rattle.merge.specs.Call.{MergeIs};

use crate::stages::checked_merge;
use index;
use json_patch::{Answer, clear, refusal_answer, suffices};
use spec::refusal::Refusal;
use tape::layout;
use tape::layout::Node;

// The merge patch is applied to the document, and the result written to `output`, or the call is refused. `nodes` and
// `index` are the work area, as in the plain call.
pub fn merge<'a>(
    document: &'a [u8],
    patch: &'a [u8],
    output: &mut [u8],
    nodes: &mut [Node],
    index: &mut [u16],
) -> Answer
    ensures { MergeIs (given document.now patch.now) (memory_before output.old nodes.old index.old)
        (memory_after output.new nodes.new index.new) result }
{
    if !suffices(nodes, index) {
        return refusal_answer(Refusal::WorkTooShort, 0, 0, 0);
    }
    let done = checked_merge(
        [document, patch],
        output,
        &mut nodes[..layout::ROWS],
        &mut index[..index::SLOTS],
    );
    clear(nodes, index);
    Answer::from(done)
}
