// What a call on lent memory must leave.
ghost use Rattle.std.specs.Prelude.{◌≡◌, ◌&&◌, IfOk, drop};
ghost use Rattle.cases.specs.Same.{all_are, clear_both};

use crate::checks::{all_from, work_clear};
use std::io;
use tape::layout::Node;

// What an output holds before a call: a byte that no text has.
pub const UNWRITTEN: u8 = 255;

// Whether a call has left the work area all zero, and the output unchanged behind the `length` bytes of its text. Where
// not, a line says it.
pub fn left_well<P: Print>(
    rt: &P,
    nodes: &[Node],
    index: &[u16],
    output: &[u8],
    length: usize,
) -> io::Result<bool>
    ensures { IfOk result (λ well. well
        ≡ (clear_both nodes.now index.now && all_are UNWRITTEN (drop length output.now))) }
{
    if !work_clear(nodes, index) {
        println!(rt; "the work area is not all zero")?;
        return Ok(false);
    }
    if !all_from(output, length, UNWRITTEN) {
        println!(rt; "the output is changed behind the text")?;
        return Ok(false);
    }
    Ok(true)
}
