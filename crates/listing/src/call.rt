// The call.
ghost use Rattle.json_patch.specs.Call.{given};
ghost use Rattle.listing.specs.Call.{list_before, list_after, ApplyListingIs};

use crate::stages::checked;
use index;
use json_patch::{Answer, clear, refusal_answer, suffices};
use spec::refusal::Refusal;
use tape::layout;
use tape::layout::Node;

// The patch is applied to the document, the result written to `output` and the origins of its values to `origins`, or
// the call is refused. `nodes` and `index` are the work area, as in the plain call.
pub fn apply_listing<'a>(
    document: &'a [u8],
    patch: &'a [u8],
    output: &mut [u8],
    origins: &mut [u16],
    nodes: &mut [Node],
    index: &mut [u16],
) -> Answer
    ensures { ApplyListingIs (given document.now patch.now) (list_before output.old origins.old nodes.old index.old)
        (list_after output.new origins.new nodes.new index.new) result }
{
    if !suffices(nodes, index) {
        return refusal_answer(Refusal::WorkTooShort, 0, 0, 0);
    }
    let done = checked(
        [document, patch],
        output,
        origins,
        &mut nodes[..layout::ROWS],
        &mut index[..index::SLOTS],
    );
    clear(nodes, index);
    Answer::from(done)
}
