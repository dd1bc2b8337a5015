// The stages of the call, in the order of SPECIFICATION 17.1: both lengths, the whole first text read, the whole second
// text read. Then the two values are compared.
ghost use Rattle.tape.specs.Lent.{lent, before};
ghost use Rattle.reader.specs.Work.{work_before};
ghost use Rattle.compare.specs.Stages.{ComparedIs, CheckedIs};

use crate::answer::Answer;
use counting::{Comparison, counted, note_places};
use index::index_tree;
use json_patch::{check_lengths, read_texts};
use spec::limits;
use tape::layout;
use tape::layout::{Node, Texts};

// The two values, both read. The places of the second one's members are noted, and its members indexed, so that each is
// found and counted without a search.
fn compared<'a>(texts: Texts<'a>, nodes: &mut [Node], index: &mut [u16]) -> Comparison
    ensures { ComparedIs (lent texts) (work_before nodes.old index.old) result }
{
    note_places(nodes, layout::PATCH, limits::MAX_DEPTH);
    index_tree(texts, nodes, index, layout::PATCH);
    counted(
        texts,
        nodes,
        index,
        layout::PATCH,
        layout::DOCUMENT,
        layout::PATCH,
        limits::MAX_DEPTH,
    )
}

// All of it, where the work area is long enough.
pub fn checked<'a>(
    texts: Texts<'a>,
    nodes: &mut [Node],
    index: &mut [u16],
) -> Result<Comparison, Answer>
    ensures { CheckedIs (lent texts) (work_before nodes.old index.old) result }
{
    check_lengths(texts)?;
    read_texts(texts, nodes, index)?;
    Ok(compared(texts, nodes, index))
}
