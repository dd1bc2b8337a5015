// One more operation of the undo, laid down before those that are noted.
ghost use Rattle.tape.specs.Lent.{before};
ghost use Rattle.undo_log.specs.Log.{NoteIs};
ghost use Rattle.undo_log.specs.Pieces.{ShallowIs, WithValueIs, MoreNodesIs, LayDownIs};

use crate::lengths::more_bytes;
use crate::log::Log;
use crate::pieces::put_operation;
use spec::limits;
use tape::fields::Spelling;
use tape::layout::{Node, Texts};
use tape::nodes::{span, within};

// What an operation of the undo does. A value is given by its row. Crate changes has the same three as `Change`, of
// rows of another table; undo_log stands below it (crates.txt).
#[derive(Clone, Copy, Debug, PartialEq, Eq)]
pub enum Action {
    Add(usize),
    Remove,
    Replace(usize),
}

// Where it acts: at a pointer of the patch; or at the element of an index, behind a pointer that is cut off after its
// last slash.
#[derive(Clone, Copy)]
pub enum Target {
    At(Spelling),
    Appended(Spelling, usize),
}

// A value stands two levels below the undo's array: in an operation's object.
const VALUE_DEPTH: u32 = limits::MAX_DEPTH - 2;

// Whether no value is too deep, with one more operation.
fn still_shallow(nodes: &[Node], shallow: bool, action: Action) -> bool
    ensures { ShallowIs nodes.now shallow action result }
{
    if !shallow {
        return false;
    }
    match action {
        Action::Add(row) | Action::Replace(row) => within(nodes, row, VALUE_DEPTH),
        Action::Remove => true,
    }
}

// Four values: the operation's object, its `op`, its `path` and its value, and those below the value.
fn with_value(nodes: &[Node], count: usize, row: usize) -> usize
    ensures { WithValueIs nodes.now count row result }
{
    let four = count.saturating_add(4);
    four.saturating_add(span(nodes, row))
        .min(limits::MAX_NODES + 1)
}

// How many values there are, with one more operation.
fn more_nodes(nodes: &[Node], count: usize, action: Action) -> usize
    ensures { MoreNodesIs nodes.now count action result }
{
    match action {
        Action::Add(row) | Action::Replace(row) => with_value(nodes, count, row),
        Action::Remove => count.saturating_add(3).min(limits::MAX_NODES + 1),
    }
}

// The operation's text is laid down so that `bytes` bytes are left from its first byte to the end of the buffer.
fn lay_down<'a>(
    texts: Texts<'a>,
    nodes: &[Node],
    bytes: usize,
    action: Action,
    target: Target,
    work: &mut [u8],
)
    ensures { LayDownIs (before texts nodes.now) action target bytes work.old work.new }
{
    let Some(start) = work.len().checked_sub(bytes) else {
        return;
    };
    put_operation(texts, nodes, action, target, &mut work[start..]);
}

// Its text is laid down where the buffer has room, and the counts go on where it has none.
pub fn note<'a>(
    texts: Texts<'a>,
    nodes: &[Node],
    log: Log,
    action: Action,
    target: Target,
    work: &mut [u8],
) -> Log
    ensures { NoteIs (before texts nodes.now) log action target work.old work.new result }
{
    let bytes = more_bytes(texts, nodes, log.bytes, action, target);
    lay_down(texts, nodes, bytes, action, target, work);
    Log {
        count: log.count.saturating_add(1).min(limits::MAX_OPERATIONS + 1),
        shallow: still_shallow(nodes, log.shallow, action),
        nodes: more_nodes(nodes, log.nodes, action),
        bytes,
    }
}
