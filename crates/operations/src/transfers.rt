// A value of the document moved or copied to another location, by way of the scratch rows.
ghost use Rattle.tape.specs.Lent.{before};
ghost use Rattle.operations.specs.Perform.{SetAsideIs, CopyIs, MoveAsideIs, MoveBelowIs, MoveIs};

use crate::answers::{Failure, Pointer};
use crate::stamps::stamp_aside;
use changes::{Change, change_at, size};
use pointer::{First, first};
use shift::shift_within;
use spec::refusal::{Fault, Refusal};
use table::spellings::part;
use tape::fields::Spelling;
use tape::layout;
use tape::layout::{Node, Texts};
use tape::moves::slide;
use walk::walk;

// The tree in a row is copied to the scratch rows.
pub fn set_aside(nodes: &mut [Node], row: usize)
    ensures { SetAsideIs nodes.old nodes.new row }
{
    let count = size(nodes, row);
    slide(nodes, layout::SCRATCH, row, count);
}

// RFC 6902, section 4.5: the value at `from` is added at `path`. All nodes of the copy bear an origin.
pub fn copy_value<'a>(
    texts: Texts<'a>,
    nodes: &mut [Node],
    used: usize,
    from: Spelling,
    path: Spelling,
    origin: u16,
) -> Result<usize, Failure>
    ensures { CopyIs (before texts nodes.old) nodes.new used from path origin result }
{
    let row = Pointer::From.told(walk(texts, nodes, layout::DOCUMENT, from))?;
    set_aside(nodes, row);
    stamp_aside(nodes, origin);
    Pointer::Path.told(change_at(texts, nodes, used, path, Change::Add(layout::SCRATCH)))
}

// The value at `from`, which is set aside, is removed, and added at `path` in what is left.
fn move_aside<'a>(
    texts: Texts<'a>,
    nodes: &mut [Node],
    used: usize,
    from: Spelling,
    path: Spelling,
) -> Result<usize, Fault>
    ensures { MoveAsideIs (before texts nodes.old) nodes.new used from path result }
{
    let left = change_at(texts, nodes, used, from, Change::Remove)?;
    change_at(texts, nodes, left, path, Change::Add(layout::SCRATCH))
}

// The value at `from`, which is not the root, is moved within its array, or set aside first.
fn move_below<'a>(
    texts: Texts<'a>,
    nodes: &mut [Node],
    used: usize,
    from: Spelling,
    path: Spelling,
) -> Result<usize, Failure>
    ensures { MoveBelowIs (before texts nodes.old) nodes.new used from path result }
{
    if shift_within(texts, nodes, used, from, path) {
        return Ok(used);
    }
    let row = Pointer::From.told(walk(texts, nodes, layout::DOCUMENT, from))?;
    set_aside(nodes, row);
    Pointer::Path.told(move_aside(texts, nodes, used, from, path))
}

// RFC 6902, section 4.4: the value at `from` is removed, then added at `path`. The root is moved only to itself.
pub fn move_value<'a>(
    texts: Texts<'a>,
    nodes: &mut [Node],
    used: usize,
    from: Spelling,
    path: Spelling,
) -> Result<usize, Failure>
    ensures { MoveIs (before texts nodes.old) nodes.new used from path result }
{
    match first(part(texts, from)) {
        First::Root => Ok(used),
        First::At(_) => move_below(texts, nodes, used, from, path),
        First::Malformed => Err(Failure {
            refusal: Refusal::MalformedPointer,
            place: 0,
            pointer: None,
        }),
    }
}
