// The call of crate `inspect` for C, as a static library: include/json_patch_inspect.h declares it.
#![tactic(auto)]

ghost use Rattle.reader.specs.Work.{work_before, work_after};
ghost use Rattle.inspect.specs.Call.{ExportIs};

use tape::layout::Node;

// As `inspect`. The answer's fields are laid down in `answer`, in the order of the header's struct; the number is
// returned too.
#[unsafe(no_mangle)]
pub extern "C" fn json_patch_inspect<'a>(
    patch: &'a [u8],
    nodes: &mut [Node],
    index: &mut [u16],
    answer: &mut [u64; 10],
) -> u32
    ensures { ExportIs patch.now (work_before nodes.old index.old) (work_after nodes.new index.new)
        answer.new result }
{
    inspect::json_patch_inspect(patch, nodes, index, answer)
}
