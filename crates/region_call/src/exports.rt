// The call for C: include/json_patch.h declares it.
ghost use Rattle.json_patch.specs.Call.{given, memory_before, memory_after};
ghost use Rattle.region_call.specs.Call.{ExportIs};

use crate::call::apply_within;
use tape::layout::Node;

// As `apply_within`. The answer's fields are laid down in `answer`, in the order of the header's struct; the number
// is returned too.
pub fn json_patch_apply_within<'a>(
    document: &'a [u8],
    patch: &'a [u8],
    region: &[u8],
    output: &mut [u8],
    nodes: &mut [Node],
    index: &mut [u16],
    answer: &mut [u64; 6],
) -> u32
    ensures { ExportIs (given document.now patch.now) region.now (memory_before output.old nodes.old index.old)
        (memory_after output.new nodes.new index.new) answer.new result }
{
    let r = apply_within(document, patch, region, output, nodes, index);
    *answer = r.into();
    u32::from(r.number)
}
