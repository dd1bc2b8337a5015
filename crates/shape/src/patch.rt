// The whole patch: an array of at most 256 operations, each of the right shape.
ghost use Rattle.tape.specs.Lent.{before};
ghost use Rattle.shape.specs.Patch.{ElementsAre, PatchIs};

use crate::operation::operation_right;
use spec::limits;
use spec::refusal::Refusal;
use tape::layout;
use tape::layout::{Node, Texts};
use tape::nodes::{arity, end_of, kind};

// Why a patch is refused, and its operation; 0 where the patch itself is at fault.
#[derive(Clone, Copy, Debug, PartialEq, Eq)]
pub struct Misshapen {
    pub refusal: Refusal,
    pub op: usize,
}

// The operations in the rows from `start` up to `end`, the first of which is operation 1.
fn elements<'a>(texts: Texts<'a>, nodes: &[Node], start: usize, end: usize) -> Result<(), Misshapen>
    ensures { ElementsAre (before texts nodes.now) start end result }
{
    let mut row = start;
    let mut op = 0;
    while row < end {
        if nodes.len() <= row {
            return Ok(());
        }
        op += 1;
        if let Err(refusal) = operation_right(texts, nodes, row) {
            return Err(Misshapen { refusal, op });
        }
        row = end_of(nodes, row);
    }
    Ok(())
}

// The patch in a row.
pub fn shape_of<'a>(texts: Texts<'a>, nodes: &[Node], row: usize) -> Result<(), Misshapen>
    ensures { PatchIs (before texts nodes.now) row result }
{
    if kind(nodes, row) != layout::ARRAY {
        return Err(Misshapen {
            refusal: Refusal::WrongShape,
            op: 0,
        });
    }
    if limits::MAX_OPERATIONS < arity(nodes, row) {
        return Err(Misshapen {
            refusal: Refusal::TooManyOperations,
            op: 0,
        });
    }
    if nodes.len() <= row {
        return Ok(());
    }
    let end = end_of(nodes, row);
    elements(texts, nodes, row + 1, end)
}
