// The call for C: include/json_patch.h declares it.
ghost use Rattle.json_patch.specs.Call.{given};
ghost use Rattle.listing.specs.Call.{list_before, list_after, ExportIs};

use crate::call::apply_listing;
use tape::layout::Node;

// As `apply_listing`. The answer's fields are laid down in `answer`, in the order of the header's struct; the number
// is returned too.
pub fn json_patch_apply_origins<'a>(
    document: &'a [u8],
    patch: &'a [u8],
    output: &mut [u8],
    origins: &mut [u16],
    nodes: &mut [Node],
    index: &mut [u16],
    answer: &mut [u64; 6],
) -> u32
    ensures { ExportIs (given document.now patch.now) (list_before output.old origins.old nodes.old index.old)
        (list_after output.new origins.new nodes.new index.new) answer.new result }
{
    let r = apply_listing(document, patch, output, origins, nodes, index);
    *answer = r.into();
    u32::from(r.number)
}
