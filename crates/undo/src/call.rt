// The call.
ghost use Rattle.json_patch.specs.Call.{given, memory_before, memory_after};
ghost use Rattle.undo.specs.Call.{with_before, with_after, UndoIs};

use crate::answer::UndoAnswer;
use crate::stages::checked;
use index;
use json_patch::{clear, refusal_answer, suffices};
use spec::limits;
use spec::refusal::Refusal;
use tape::layout;
use tape::layout::Node;
use undo_log::log;

// As the plain call: the patch is applied to the document and the result written to `output`. Beside it the patch
// that takes it back is written to `undo`. `work` is a buffer of at least MAX_BYTES bytes in which that is made; it may
// hold anything, and its first MAX_BYTES bytes are all zero afterwards. A refusal leaves both outputs unchanged.
pub fn apply_with_undo<'a>(
    document: &'a [u8],
    patch: &'a [u8],
    output: &mut [u8],
    undo: &mut [u8],
    nodes: &mut [Node],
    index: &mut [u16],
    work: &mut [u8],
) -> UndoAnswer
    ensures { UndoIs (given document.now patch.now)
        (with_before (memory_before output.old nodes.old index.old) undo.old work.old)
        (with_after (memory_after output.new nodes.new index.new) undo.new work.new) result }
{
    if !suffices(nodes, index) || work.len() < limits::MAX_BYTES {
        return UndoAnswer::from(Err(refusal_answer(Refusal::WorkTooShort, 0, 0, 0)));
    }
    let done = checked(
        [document, patch],
        output,
        undo,
        &mut nodes[..layout::ROWS],
        &mut index[..index::SLOTS],
        &mut work[..limits::MAX_BYTES],
    );
    clear(nodes, index);
    log::clear(work);
    UndoAnswer::from(done)
}
