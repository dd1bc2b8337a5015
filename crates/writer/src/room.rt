// Whether an output has room for a value's text.
ghost use Rattle.std.specs.Prelude.{◌≡◌, ◌≤◌};
ghost use Rattle.tape.specs.Lent.{before};
ghost use Rattle.writer.specs.Writing.{row_bytes, SurelyFitsIs, FitsIs};

use crate::values::measure;
use tape::fields::wide;
use tape::layout;
use tape::layout::{Node, Texts};

// The most bytes that a row takes in the text.
fn row_bytes(node: Node) -> usize
    ensures { (result ≡ row_bytes node) × (result ≤ 131_079) }
{
    wide(node[layout::NAME_LENGTH]) + wide(node[layout::LENGTH]) + 9
}

// Where it answers true, the text of the tree in the row `at` has at most `room` bytes. Where it answers false, there
// may be room all the same. No text is read, and the loop passes every row: one without an early exit is quicker.
fn surely_fits(nodes: &[Node], at: usize, room: usize) -> bool
    ensures { SurelyFitsIs nodes.now at room result }
{
    if nodes.len() <= at {
        return true;
    }
    let end = (at + 1 + wide(nodes[at][layout::SPAN])).min(nodes.len());
    let mut total = 0;
    for node in &nodes[at..end] {
        total += row_bytes(*node);
    }
    total <= room
}

// Whether the text of the tree in the row `at`, which nests at most `levels` containers, has at most `room` bytes.
// The text is measured only where that is not sure.
pub fn fits<'a>(texts: Texts<'a>, nodes: &[Node], at: usize, levels: u32, room: usize) -> bool
    ensures { FitsIs (before texts nodes.now) at levels room result }
{
    if surely_fits(nodes, at, room) {
        return true;
    }
    measure(texts, nodes, at, levels) <= room
}
