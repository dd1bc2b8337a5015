// One operation of the patch, by its row. Its members are found again there.
ghost use Rattle.tape.specs.Lent.{before};
ghost use Rattle.operations.specs.Perform.{MoveGiven, CopyGiven, EqualToIs, PerformIs};

use crate::answers::{Failure, MISSHAPEN, Pointer};
use crate::transfers::{copy_value, move_value};
use changes::{Change, change_at};
use equality::compare;
use shape::{Kind, kind_named, members_of, string_in};
use spec::limits;
use spec::refusal::{Fault, Refusal};
use tape::fields::Spelling;
use tape::layout;
use tape::layout::{Node, Texts};
use walk::walk;

// RFC 6902, section 4.4: the value at `from` is removed, then added at `path`. The row of `from` is given.
fn move_to<'a>(
    texts: Texts<'a>,
    nodes: &mut [Node],
    used: usize,
    at: Option<usize>,
    path: Spelling,
) -> Result<usize, Failure>
    ensures { MoveGiven (before texts nodes.old) nodes.new used at path result }
{
    let from = string_in(nodes, at).ok_or(MISSHAPEN)?;
    move_value(texts, nodes, used, from, path)
}

// Section 4.5: the value at `from` is added at `path`.
fn copy<'a>(
    texts: Texts<'a>,
    nodes: &mut [Node],
    used: usize,
    at: Option<usize>,
    path: Spelling,
    op: u16,
) -> Result<usize, Failure>
    ensures { CopyGiven (before texts nodes.old) nodes.new used at path op result }
{
    let from = string_in(nodes, at).ok_or(MISSHAPEN)?;
    copy_value(texts, nodes, used, from, path, op)
}

// The value at `path` must be equal to that in the row `value`.
fn equal_to<'a>(
    texts: Texts<'a>,
    nodes: &[Node],
    index: &mut [u16],
    used: usize,
    path: Spelling,
    value: usize,
) -> Result<usize, Fault>
    ensures { EqualToIs (before texts nodes.now) used path value result }
{
    let row = walk(texts, nodes, layout::DOCUMENT, path)?;
    if !compare(texts, nodes, index, row, value, limits::MAX_DEPTH) {
        return Err(Refusal::TestDiffers.at(0));
    }
    Ok(used)
}

// The operation in a row of the patch, and its number in the run: a copy bears it. RFC 6902, section 4. In a patch of
// the right shape, an operation has each member that its kind uses.
pub fn perform<'a>(
    texts: Texts<'a>,
    nodes: &mut [Node],
    index: &mut [u16],
    used: usize,
    row: usize,
    op: u16,
) -> Result<usize, Failure>
    ensures { PerformIs (before texts nodes.old) nodes.new used row op result }
{
    let members = members_of(texts, nodes, row);
    let path = string_in(nodes, members.path).ok_or(MISSHAPEN)?;
    let word = string_in(nodes, members.op).ok_or(MISSHAPEN)?;
    let kind = kind_named(texts, word).ok_or(MISSHAPEN)?;
    match kind {
        Kind::Add => {
            let value = members.value.ok_or(MISSHAPEN)?;
            Pointer::Path.told(change_at(texts, nodes, used, path, Change::Add(value)))
        }
        Kind::Remove => Pointer::Path.told(change_at(texts, nodes, used, path, Change::Remove)),
        Kind::Replace => {
            let value = members.value.ok_or(MISSHAPEN)?;
            Pointer::Path.told(change_at(texts, nodes, used, path, Change::Replace(value)))
        }
        Kind::Move => move_to(texts, nodes, used, members.from, path),
        Kind::Copy => copy(texts, nodes, used, members.from, path, op),
        Kind::Test => {
            let value = members.value.ok_or(MISSHAPEN)?;
            Pointer::Path.told(equal_to(texts, nodes, index, used, path, value))
        }
    }
}
