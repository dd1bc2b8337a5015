// The call.
ghost use Rattle.reader.specs.Work.{work_before, work_after};
ghost use Rattle.json_patch.specs.Call.{given};
ghost use Rattle.compare.specs.Call.{CompareIs};

use crate::answer::{Answer, refused};
use crate::stages::checked;
use index;
use json_patch::{clear, suffices};
use spec::refusal::Refusal;
use tape::layout;
use tape::layout::Node;

// Both texts are read and their values compared, or the call is refused. The first is the target: its members are taken
// in order. `nodes` and `index` are the work area, as `json_patch::apply` takes it: at least ROWS records and SLOTS
// entries, which may hold anything. That many of each are all zero afterwards.
pub fn compare<'a>(
    first: &'a [u8],
    second: &'a [u8],
    nodes: &mut [Node],
    index: &mut [u16],
) -> Answer
    ensures { CompareIs (given first.now second.now) (work_before nodes.old index.old)
        (work_after nodes.new index.new) result }
{
    if !suffices(nodes, index) {
        return refused(Refusal::WorkTooShort, 0, 0);
    }
    let done = checked(
        [first, second],
        &mut nodes[..layout::ROWS],
        &mut index[..index::SLOTS],
    );
    clear(nodes, index);
    Answer::from(done)
}
