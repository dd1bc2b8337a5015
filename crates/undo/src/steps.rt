// One operation of the patch, with its undo noted before it is performed.
ghost use Rattle.tape.specs.Lent.{before};
ghost use Rattle.undo.specs.Step.{NoteBeforeIs, StepIs};

use crate::logged::Logged;
use crate::mending::{mend, note_removed, note_replaced};
use crate::moving::{move_step, plain};
use operations::Failure;
use shape::{Kind, kind_of, string_member, uses_of};
use tape::fields::Spelling;
use tape::layout::{Node, Texts};
use undo_log::log::Log;

// T-09: "test gives nothing [..]; a value newly put in is removed; a value that replaced another is replaced by the old
// one; a removed one is added." A move is noted by itself.
fn note_before<'a>(
    texts: Texts<'a>,
    nodes: &[Node],
    kind: Kind,
    path: Spelling,
    log: Log,
    work: &mut [u8],
) -> Log
    ensures { NoteBeforeIs (before texts nodes.now) work.old work.new kind path log result }
{
    match kind {
        Kind::Add | Kind::Copy => mend(texts, nodes, log, path, work),
        Kind::Remove => note_removed(texts, nodes, log, path, work),
        Kind::Replace => note_replaced(texts, nodes, log, path, work),
        Kind::Move | Kind::Test => log,
    }
}

// The operation in a row of the patch, by its number.
pub fn step<'a>(
    texts: Texts<'a>,
    nodes: &mut [Node],
    index: &mut [u16],
    logged: Logged,
    row: usize,
    op: u16,
    work: &mut [u8],
) -> Result<Logged, Failure>
    ensures { StepIs (before texts nodes.old) nodes.new work.old
        work.new logged.rows row op logged.log result }
{
    let Some(path) = string_member(texts, nodes, row, b"path") else {
        return plain(texts, nodes, index, logged, row, op);
    };
    let Some(kind) = kind_of(texts, nodes, row) else {
        return plain(texts, nodes, index, logged, row, op);
    };
    if uses_of(Some(kind)).moves {
        return move_step(texts, nodes, index, logged, row, op, path, work);
    }
    let log = note_before(texts, nodes, kind, path, logged.log, work);
    plain(texts, nodes, index, Logged { log, ..logged }, row, op)
}
