// The call.
ghost use Rattle.reader.specs.Work.{work_before, work_after};
ghost use Rattle.inspect.specs.Call.{InspectIs};

use crate::answer::{Answer, refused};
use crate::stages::checked;
use index;
use json_patch::{clear, suffices};
use spec::refusal::Refusal;
use tape::layout;
use tape::layout::Node;

// The patch is read and shaped, and its operations counted, or the call is refused. `nodes` and `index` are the work
// area, as `json_patch::apply` takes it: at least ROWS records and SLOTS entries, which may hold anything. That many of
// each are all zero afterwards.
pub fn inspect<'a>(patch: &'a [u8], nodes: &mut [Node], index: &mut [u16]) -> Answer
    ensures { InspectIs patch.now (work_before nodes.old index.old) (work_after nodes.new index.new) result }
{
    if !suffices(nodes, index) {
        return refused(Refusal::WorkTooShort, 0, 0, 0);
    }
    let done = checked(
        [patch, patch],
        &mut nodes[..layout::ROWS],
        &mut index[..index::SLOTS],
    );
    clear(nodes, index);
    Answer::from(done)
}
