// The call.
ghost use Rattle.json_patch.specs.Call.{given, memory_before, memory_after, ApplyIs};

use crate::answer::{Answer, refusal_answer};
use crate::stages::checked;
use crate::work::{clear, suffices};
use index;
use spec::refusal::Refusal;
use tape::layout;
use tape::layout::Node;

// The patch is applied to the document and the result written to `output`, or the call is refused. `nodes` and `index`
// are the work area: at least ROWS records and SLOTS entries, which may hold anything. That many of each are all zero
// afterwards.
pub fn apply<'a>(
    document: &'a [u8],
    patch: &'a [u8],
    output: &mut [u8],
    nodes: &mut [Node],
    index: &mut [u16],
) -> Answer
    ensures { ApplyIs (given document.now patch.now) (memory_before output.old nodes.old index.old)
        (memory_after output.new nodes.new index.new) result }
{
    if !suffices(nodes, index) {
        return refusal_answer(Refusal::WorkTooShort, 0, 0, 0);
    }
    let done = checked(
        [document, patch],
        output,
        &mut nodes[..layout::ROWS],
        &mut index[..index::SLOTS],
    );
    clear(nodes, index);
    Answer::from(done)
}
