// A move, with its undo noted. T-09: "A move first mends `path` in that way, then adds the moved value at `from`; but
// where the value it replaced at `path` had held `from`, only `path` is mended, with that value as it stood before the
// move."
ghost use Rattle.tape.specs.Lent.{before};
ghost use Rattle.undo.specs.Step.{InObjectIs, HoldsIs, MoveApartIs, PlainIs, MoveFromIs, MoveBelowIs, MoveStepIs};

use crate::cuts::{last_slash, shortened};
use crate::logged::Logged;
use crate::mending::{mend, note_replaced};
use changes::{Change, change_at};
use operations::perform::perform;
use operations::{Failure, Pointer, set_aside};
use pointer::{First, first, proper_prefix};
use shape::string_member;
use table::spellings::part;
use tape::fields::Spelling;
use tape::layout;
use tape::layout::{Node, Texts};
use tape::nodes::kind;
use undo_log::note::{Action, Target, note};
use walk::walk;

// Whether the parent of the location that `path` names is an object.
fn in_object<'a>(texts: Texts<'a>, nodes: &[Node], path: Spelling) -> bool
    ensures { InObjectIs (before texts nodes.now) path result }
{
    let cut = last_slash(part(texts, path));
    let Ok(parent) = walk(texts, nodes, layout::DOCUMENT, shortened(path, cut.end)) else {
        return false;
    };
    kind(nodes, parent) == layout::OBJECT
}

// Whether a value that holds `from` is replaced at `path`: the root, or a member.
fn holds<'a>(texts: Texts<'a>, nodes: &[Node], path: Spelling, from: Spelling) -> bool
    ensures { HoldsIs (before texts nodes.now) path from result }
{
    let to = part(texts, path);
    if !proper_prefix(to, part(texts, from)) {
        return false;
    }
    match first(to) {
        First::Root => true,
        First::At(_) => in_object(texts, nodes, path),
        First::Malformed => false,
    }
}

// The value at `from`, which is in a row, is removed, and added at `path` in what is left.
fn move_apart<'a>(
    texts: Texts<'a>,
    nodes: &mut [Node],
    logged: Logged,
    from: Spelling,
    path: Spelling,
    row: usize,
    work: &mut [u8],
) -> Result<Logged, Failure>
    ensures { MoveApartIs (before texts nodes.old) nodes.new work.old work.new
        logged.rows from path row logged.log result }
{
    set_aside(nodes, row);
    let left = Pointer::Path.told(change_at(texts, nodes, logged.rows, from, Change::Remove))?;
    let log = mend(texts, nodes, logged.log, path, work);
    let add = Change::Add(layout::SCRATCH);
    let rows = Pointer::Path.told(change_at(texts, nodes, left, path, add))?;
    Ok(Logged { rows, log })
}

// The operation in a row of the patch, by its number, performed as it is; nothing more is noted.
pub fn plain<'a>(
    texts: Texts<'a>,
    nodes: &mut [Node],
    index: &mut [u16],
    logged: Logged,
    row: usize,
    op: u16,
) -> Result<Logged, Failure>
    ensures { PlainIs (before texts nodes.old) nodes.new logged.rows row op logged.log result }
{
    let rows = perform(texts, nodes, index, logged.rows, row, op)?;
    Ok(Logged { rows, ..logged })
}

// The value at `from`, which is in a row and not the root, is moved.
fn move_from<'a>(
    texts: Texts<'a>,
    nodes: &mut [Node],
    index: &mut [u16],
    logged: Logged,
    row: usize,
    op: u16,
    from: Spelling,
    path: Spelling,
    at: usize,
    work: &mut [u8],
) -> Result<Logged, Failure>
    ensures { MoveFromIs (before texts nodes.old) nodes.new work.old work.new logged.rows
        row op from path at logged.log result }
{
    if holds(texts, nodes, path, from) {
        let log = note_replaced(texts, nodes, logged.log, path, work);
        return plain(texts, nodes, index, Logged { log, ..logged }, row, op);
    }
    let log = note(
        texts,
        nodes,
        logged.log,
        Action::Add(at),
        Target::At(from),
        work,
    );
    move_apart(texts, nodes, Logged { log, ..logged }, from, path, at, work)
}

// The value at `from`, which is not the root, is moved, where there is one.
fn move_below<'a>(
    texts: Texts<'a>,
    nodes: &mut [Node],
    index: &mut [u16],
    logged: Logged,
    row: usize,
    op: u16,
    from: Spelling,
    path: Spelling,
    work: &mut [u8],
) -> Result<Logged, Failure>
    ensures { MoveBelowIs (before texts nodes.old) nodes.new work.old work.new
        logged.rows row op from path logged.log result }
{
    let Ok(at) = walk(texts, nodes, layout::DOCUMENT, from) else {
        return plain(texts, nodes, index, logged, row, op);
    };
    move_from(texts, nodes, index, logged, row, op, from, path, at, work)
}

// The move in a row of the patch. A move of root to root gives no operation.
pub fn move_step<'a>(
    texts: Texts<'a>,
    nodes: &mut [Node],
    index: &mut [u16],
    logged: Logged,
    row: usize,
    op: u16,
    path: Spelling,
    work: &mut [u8],
) -> Result<Logged, Failure>
    ensures { MoveStepIs (before texts nodes.old) nodes.new work.old
        work.new logged.rows row op path logged.log result }
{
    let Some(from) = string_member(texts, nodes, row, b"from") else {
        return plain(texts, nodes, index, logged, row, op);
    };
    match first(part(texts, from)) {
        First::Root => plain(texts, nodes, index, logged, row, op),
        First::At(_) => move_below(texts, nodes, index, logged, row, op, from, path, work),
        First::Malformed => plain(texts, nodes, index, logged, row, op),
    }
}
