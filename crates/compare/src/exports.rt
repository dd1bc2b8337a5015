// The call for C: include/json_patch_compare.h declares it.
ghost use Rattle.reader.specs.Work.{work_before, work_after};
ghost use Rattle.json_patch.specs.Call.{given};
ghost use Rattle.compare.specs.Call.{ExportIs};

use crate::call::compare;
use tape::layout::Node;

// As `compare`. The answer's fields are laid down in `answer`, in the order of the header's struct, `equal` as 1 or 0;
// the number is returned too.
pub fn json_patch_compare<'a>(
    first: &'a [u8],
    second: &'a [u8],
    nodes: &mut [Node],
    index: &mut [u16],
    answer: &mut [u64; 5],
) -> u32
    ensures { ExportIs (given first.now second.now) (work_before nodes.old index.old) (work_after nodes.new index.new)
        answer.new result }
{
    let r = compare(first, second, nodes, index);
    *answer = r.into();
    u32::from(r.number)
}
