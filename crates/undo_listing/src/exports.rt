// The call for C.
ghost use Rattle.json_patch.specs.Call.{given};
ghost use Rattle.undo_listing.specs.Call.{memory_before, memory_after, ExportIs};

use crate::call::apply_with_undo_listing;
use tape::layout::Node;

// As `apply_with_undo_listing`. The answer's fields are laid down in `answer`, in the order of the header's struct; the
// number is returned too.
pub fn json_patch_apply_with_undo_origins<'a>(
    document: &'a [u8],
    patch: &'a [u8],
    output: &mut [u8],
    undo: &mut [u8],
    origins: &mut [u16],
    nodes: &mut [Node],
    index: &mut [u16],
    work: &mut [u8],
    answer: &mut [u64; 7],
) -> u32
    ensures { ExportIs (given document.now patch.now)
        (memory_before output.old undo.old origins.old nodes.old index.old work.old)
        (memory_after output.new undo.new origins.new nodes.new index.new work.new) answer.new result }
{
    let r = apply_with_undo_listing(document, patch, output, undo, origins, nodes, index, work);
    *answer = r.into();
    u32::from(r.answer.number)
}
