// The call of crate `compare` for C, as a static library: include/json_patch_compare.h declares it.
#![tactic(auto)]

ghost use Rattle.reader.specs.Work.{work_before, work_after};
ghost use Rattle.json_patch.specs.Call.{given};
ghost use Rattle.compare.specs.Call.{ExportIs};

use tape::layout::Node;

// As `compare`. The answer's fields are laid down in `answer`, in the order of the header's struct, `equal` as 1 or 0;
// the number is returned too.
#[unsafe(no_mangle)]
pub extern "C" fn json_patch_compare<'a>(
    first: &'a [u8],
    second: &'a [u8],
    nodes: &mut [Node],
    index: &mut [u16],
    answer: &mut [u64; 5],
) -> u32
    ensures { ExportIs (given first.now second.now) (work_before nodes.old index.old) (work_after nodes.new index.new)
        answer.new result }
{
    compare::json_patch_compare(first, second, nodes, index, answer)
}
