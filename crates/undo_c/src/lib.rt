// The call of crate `undo` for C, as a static library: include/json_patch.h declares it.
#![tactic(auto)]

ghost use Rattle.json_patch.specs.Call.{given, memory_before, memory_after};
ghost use Rattle.undo.specs.Call.{with_before, with_after, ExportIs};

use tape::layout::Node;

// As `apply_with_undo`. The answer's fields are laid down in `answer`, in the order of the header's struct; the
// number is returned too.
#[unsafe(no_mangle)]
pub extern "C" fn json_patch_apply_with_undo<'a>(
    document: &'a [u8],
    patch: &'a [u8],
    output: &mut [u8],
    undo: &mut [u8],
    nodes: &mut [Node],
    index: &mut [u16],
    work: &mut [u8],
    answer: &mut [u64; 7],
) -> u32
    ensures { ExportIs (given document.now patch.now)
        (with_before (memory_before output.old nodes.old index.old) undo.old work.old)
        (with_after (memory_after output.new nodes.new index.new) undo.new work.new) answer.new result }
{
    undo::json_patch_apply_with_undo(document, patch, output, undo, nodes, index, work, answer)
}
