// The stages of the call with a region: the three lengths, the whole document read, the whole patch read, the region,
// the shape of every operation with the rule, the operations one after another, then the result written.
ghost use Rattle.tape.specs.Lent.{lent, before};
ghost use Rattle.json_patch.specs.Call.{memory_before};
ghost use Rattle.region_call.specs.Stages.{RunWithinIs, CheckedWithinIs};

use json_patch::{Answer, check_lengths, read_texts, refusal_answer, write_out};
use operations::run;
use region::{is_region, shape_within};
use spec::limits;
use spec::refusal::Refusal;
use tape::layout;
use tape::layout::{Node, Texts};

// The patch, read before, is applied within the region to the document, which has `used` rows.
fn run_within<'a>(
    texts: Texts<'a>,
    region: &[u8],
    output: &mut [u8],
    nodes: &mut [Node],
    index: &mut [u16],
    used: usize,
) -> Result<usize, Answer>
    ensures { RunWithinIs (before texts nodes.old) region.now output.old
        output.new used result }
{
    if !is_region(region) {
        return Err(refusal_answer(Refusal::MalformedPointer, 0, 0, 0));
    }
    shape_within(texts, nodes, layout::PATCH, region)?;
    run(texts, nodes, index, used)?;
    write_out(texts, output, nodes)
}

// All stages, where the work area is long enough.
pub fn checked_within<'a>(
    texts: Texts<'a>,
    region: &[u8],
    output: &mut [u8],
    nodes: &mut [Node],
    index: &mut [u16],
) -> Result<usize, Answer>
    ensures { CheckedWithinIs (lent texts) region.now (memory_before output.old nodes.old index.old)
        output.new result }
{
    check_lengths(texts)?;
    if limits::MAX_BYTES < region.len() {
        return Err(refusal_answer(Refusal::InputTooLong, 0, 0, 0));
    }
    let used = read_texts(texts, nodes, index)?;
    run_within(texts, region, output, nodes, index, used)
}
