// The call for C: include/json_patch_inspect.h declares it.
ghost use Rattle.reader.specs.Work.{work_before, work_after};
ghost use Rattle.inspect.specs.Call.{ExportIs};

use crate::call::inspect;
use tape::layout::Node;

// As `inspect`. The answer's fields are laid down in `answer`, in the order of the header's struct; the number is
// returned too.
pub fn json_patch_inspect<'a>(
    patch: &'a [u8],
    nodes: &mut [Node],
    index: &mut [u16],
    answer: &mut [u64; 10],
) -> u32
    ensures { ExportIs patch.now (work_before nodes.old index.old) (work_after nodes.new index.new)
        answer.new result }
{
    let r = inspect(patch, nodes, index);
    *answer = r.into();
    u32::from(r.number)
}
