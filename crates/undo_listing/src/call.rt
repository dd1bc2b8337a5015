// The call.
ghost use Rattle.json_patch.specs.Call.{given};
ghost use Rattle.undo_listing.specs.Call.{memory_before, memory_after, UndoListingIs};

use crate::stages::checked;
use index;
use json_patch::{clear, refusal_answer, suffices};
use spec::limits;
use spec::refusal::Refusal;
use tape::layout;
use tape::layout::Node;
use undo::UndoAnswer;
use undo_log::log;

// As the call with an undo: the patch is applied to the document, the result written to `output` and the patch that
// takes it back to `undo`. The origins of the result's values are written to `origins`. A refusal leaves all three
// unchanged. `nodes`, `index` and `work` are as in the call with an undo.
pub fn apply_with_undo_listing<'a>(
    document: &'a [u8],
    patch: &'a [u8],
    output: &mut [u8],
    undo: &mut [u8],
    origins: &mut [u16],
    nodes: &mut [Node],
    index: &mut [u16],
    work: &mut [u8],
) -> UndoAnswer
    ensures { UndoListingIs (given document.now patch.now)
        (memory_before output.old undo.old origins.old nodes.old index.old work.old)
        (memory_after output.new undo.new origins.new nodes.new index.new work.new) result }
{
    if !suffices(nodes, index) || work.len() < limits::MAX_BYTES {
        return UndoAnswer::from(Err(refusal_answer(Refusal::WorkTooShort, 0, 0, 0)));
    }
    let done = checked(
        [document, patch],
        output,
        undo,
        origins,
        &mut nodes[..layout::ROWS],
        &mut index[..index::SLOTS],
        &mut work[..limits::MAX_BYTES],
    );
    clear(nodes, index);
    log::clear(work);
    UndoAnswer::from(done)
}
