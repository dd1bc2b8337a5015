// The stages of the call, in the order of SPECIFICATION 14.1: the patch's length, the whole patch read, the shape of
// every operation. Then the operations are counted.
ghost use Rattle.tape.specs.Lent.{lent, before};
ghost use Rattle.reader.specs.Work.{work_before};
ghost use Rattle.inspect.specs.Stages.{CountedIs, ShapedIs, CheckedIs};

use crate::answer::{Answer, refused};
use crate::counts::{Counts, NONE, one, plus};
use reader::read_patch;
use shape::{kind_of, shape_of};
use spec::limits;
use spec::refusal::Refusal;
use tape::layout;
use tape::layout::{Node, Texts};
use tape::nodes::end_of;

// The operations in the rows from `start` up to `end`, counted. A turn passes a whole tree, so no range gives the rows.
fn counted<'a>(texts: Texts<'a>, nodes: &[Node], start: usize, end: usize) -> Counts
    ensures { CountedIs (before texts nodes.now) start end result }
{
    let mut row = start;
    let mut counts = NONE;
    while row < end {
        if nodes.len() <= row {
            return counts;
        }
        let more = one(kind_of(texts, nodes, row));
        counts = plus(counts, more);
        row = end_of(nodes, row);
    }
    counts
}

// The patch, already read.
fn shaped<'a>(texts: Texts<'a>, nodes: &[Node]) -> Result<Counts, Answer>
    ensures { ShapedIs (before texts nodes.now) result }
{
    shape_of(texts, nodes, layout::PATCH)?;
    let end = end_of(nodes, layout::PATCH);
    Ok(counted(texts, nodes, layout::PATCH + 1, end))
}

// All of it, where the work area is long enough. There is no document: the patch stands in its place.
pub fn checked<'a>(
    texts: Texts<'a>,
    nodes: &mut [Node],
    index: &mut [u16],
) -> Result<Counts, Answer>
    ensures { CheckedIs (lent texts) (work_before nodes.old index.old) result }
{
    if limits::MAX_BYTES < texts[1].len() {
        return Err(refused(Refusal::InputTooLong, 2, 0, 0));
    }
    read_patch(texts, nodes, index)?;
    shaped(texts, nodes)
}
