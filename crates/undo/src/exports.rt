// The call for C: include/json_patch.h declares it.
ghost use Rattle.json_patch.specs.Call.{given, memory_before, memory_after};
ghost use Rattle.undo.specs.Call.{with_before, with_after, ExportIs};

use crate::call::apply_with_undo;
use tape::layout::Node;

// As `apply_with_undo`. The answer's fields are laid down in `answer`, in the order of the header's struct; the
// number is returned too.
pub fn json_patch_apply_with_undo<'a>(
    document: &'a [u8],
    patch: &'a [u8],
    output: &mut [u8],
    undo: &mut [u8],
    nodes: &mut [Node],
    index: &mut [u16],
    work: &mut [u8],
    answer: &mut [u64; 7],
) -> u32
    ensures { ExportIs (given document.now patch.now)
        (with_before (memory_before output.old nodes.old index.old) undo.old work.old)
        (with_after (memory_after output.new nodes.new index.new) undo.new work.new) answer.new result }
{
    let r = apply_with_undo(document, patch, output, undo, nodes, index, work);
    *answer = r.into();
    u32::from(r.answer.number)
}
