// The operations of a patch, one after another.
ghost use Rattle.tape.specs.Lent.{before};
ghost use Rattle.operations.specs.Run.{ElementsRunIs, RunIs};

use crate::answers::Stop;
use crate::perform::perform;
use tape::fields::narrow;
use tape::layout;
use tape::layout::{Node, Texts};
use tape::nodes::end_of;

// The operations in the rows from `start` up to `end`, the first of which is operation 1; the first that fails ends
// the run.
fn elements<'a>(
    texts: Texts<'a>,
    nodes: &mut [Node],
    index: &mut [u16],
    used: usize,
    start: usize,
    end: usize,
) -> Result<usize, Stop>
    ensures { ElementsRunIs (before texts nodes.old) nodes.new used start end result }
{
    let mut rows = used;
    let mut row = start;
    let mut op = 0;
    while row < end {
        if nodes.len() <= row {
            return Ok(rows);
        }
        op += 1;
        let performed = perform(texts, nodes, index, rows, row, narrow(op));
        rows = performed.map_err(|failure| failure.stop(op))?;
        row = end_of(nodes, row);
    }
    Ok(rows)
}

// The operations of a patch of the right shape, on a document of `used` rows.
pub fn run<'a>(
    texts: Texts<'a>,
    nodes: &mut [Node],
    index: &mut [u16],
    used: usize,
) -> Result<usize, Stop>
    ensures { RunIs (before texts nodes.old) nodes.new used result }
{
    let end = end_of(nodes, layout::PATCH);
    elements(texts, nodes, index, used, layout::PATCH + 1, end)
}
