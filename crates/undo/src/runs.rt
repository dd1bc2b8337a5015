// The operations of a patch, one after another, with their undo noted.
ghost use Rattle.tape.specs.Lent.{before};
ghost use Rattle.undo.specs.Run.{ElementsLoggedIs, LoggedIs};

use crate::logged::Logged;
use crate::steps::step;
use operations::Stop;
use tape::fields::narrow;
use tape::layout;
use tape::layout::{Node, Texts};
use tape::nodes::end_of;

// The operations in the rows from `start` up to `end`, the first of which is operation 1; the first that fails ends
// the run.
fn elements<'a>(
    texts: Texts<'a>,
    nodes: &mut [Node],
    index: &mut [u16],
    begun: Logged,
    start: usize,
    end: usize,
    work: &mut [u8],
) -> Result<Logged, Stop>
    ensures { ElementsLoggedIs (before texts nodes.old) nodes.new work.old
        work.new begun.rows start end begun.log result }
{
    let mut logged = begun;
    let mut row = start;
    let mut op = 0;
    // the next operation stands behind the tree of this one: no range steps so
    while row < end {
        if nodes.len() <= row {
            return Ok(logged);
        }
        op += 1;
        let stepped = step(texts, nodes, index, logged, row, narrow(op), work);
        logged = stepped.map_err(|failure| failure.stop(op))?;
        row = end_of(nodes, row);
    }
    Ok(logged)
}

// The operations of a patch of the right shape, on a document of so many rows, from a log on.
pub fn run<'a>(
    texts: Texts<'a>,
    nodes: &mut [Node],
    index: &mut [u16],
    begun: Logged,
    work: &mut [u8],
) -> Result<Logged, Stop>
    ensures { LoggedIs (before texts nodes.old) nodes.new work.old
        work.new begun.rows begun.log result }
{
    let end = end_of(nodes, layout::PATCH);
    elements(texts, nodes, index, begun, layout::PATCH + 1, end, work)
}
