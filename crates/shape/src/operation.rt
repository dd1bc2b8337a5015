// One operation: its members, then its pointers.
ghost use Rattle.tape.specs.Lent.{lent, before};
ghost use Rattle.shape.specs.Operation.{KindIs, KindGiven, ValueIs, OnlyPathIs, PointersAre};
ghost use Rattle.shape.specs.Operation.{OthersAre, OthersGiven, MembersGiven, OperationIs};

use crate::all_members::{Members, members_of};
use crate::kinds::{Kind, kind_named, uses_of};
use crate::members::string_in;
use pointer::{is_pointer, proper_prefix};
use spec::refusal::Refusal;
use table::spellings::part;
use tape::fields::Spelling;
use tape::layout;
use tape::layout::{Node, Texts};
use tape::nodes::kind;

// The kind of the operation in a row, given the row of its `op`.
fn kind_at<'a>(texts: Texts<'a>, nodes: &[Node], row: usize, op: Option<usize>) -> Option<Kind>
    ensures { KindGiven (before texts nodes.now) row op result }
{
    if kind(nodes, row) != layout::OBJECT {
        return None;
    }
    let Some(word) = string_in(nodes, op) else {
        return None;
    };
    kind_named(texts, word)
}

// The kind of the operation in a row, if that is an object whose `op` names one.
pub fn kind_of<'a>(texts: Texts<'a>, nodes: &[Node], row: usize) -> Option<Kind>
    ensures { KindIs (before texts nodes.now) row result }
{
    kind_at(texts, nodes, row, members_of(texts, nodes, row).op)
}

// Refused where a value is used and there is none.
fn value_right(value: Option<usize>, used: bool) -> Result<(), Refusal>
    ensures { ValueIs value used result }
{
    if used && value.is_none() {
        return Err(Refusal::WrongShape);
    }
    Ok(())
}

// Refused where the `path` of an operation without `from` is no pointer.
fn path_right<'a>(texts: Texts<'a>, path: Spelling) -> Result<(), Refusal>
    ensures { OnlyPathIs (lent texts) path result }
{
    let to = part(texts, path);
    if !is_pointer(to) {
        return Err(Refusal::MalformedPointer);
    }
    Ok(())
}

// Refused where `path` or `from` is no pointer, or a move leads into what it moves.
fn pointers_right<'a>(
    texts: Texts<'a>,
    moves: bool,
    path: Spelling,
    from: Spelling,
) -> Result<(), Refusal>
    ensures { PointersAre (lent texts) moves path from result }
{
    let to = part(texts, path);
    if !is_pointer(to) {
        return Err(Refusal::MalformedPointer);
    }
    let source = part(texts, from);
    if !is_pointer(source) {
        return Err(Refusal::MalformedPointer);
    }
    if !moves {
        return Ok(());
    }
    if proper_prefix(source, to) {
        return Err(Refusal::MoveIntoChild);
    }
    Ok(())
}

// Refused where a member other than `op` and `path` is wrong, or a pointer is. The operation's kind, its members and
// its `path` are given.
fn others_in<'a>(
    texts: Texts<'a>,
    nodes: &[Node],
    members: Members,
    kind: Option<Kind>,
    path: Spelling,
) -> Result<(), Refusal>
    ensures { OthersGiven (before texts nodes.now) members kind path result }
{
    let uses = uses_of(kind);
    value_right(members.value, uses.value)?;
    if !uses.from {
        return path_right(texts, path);
    }
    let Some(from) = string_in(nodes, members.from) else {
        return Err(Refusal::WrongShape);
    };
    pointers_right(texts, uses.moves, path, from)
}

// The same for the operation in a row.
pub fn others_right<'a>(
    texts: Texts<'a>,
    nodes: &[Node],
    row: usize,
    kind: Option<Kind>,
    path: Spelling,
) -> Result<(), Refusal>
    ensures { OthersAre (before texts nodes.now) row kind path result }
{
    others_in(texts, nodes, members_of(texts, nodes, row), kind, path)
}

// Refused where a member other than `op` is wrong, or a pointer is. The operation's kind and its members are given.
fn members_right<'a>(
    texts: Texts<'a>,
    nodes: &[Node],
    members: Members,
    kind: Kind,
) -> Result<(), Refusal>
    ensures { MembersGiven (before texts nodes.now) members kind result }
{
    let Some(path) = string_in(nodes, members.path) else {
        return Err(Refusal::WrongShape);
    };
    others_in(texts, nodes, members, Some(kind), path)
}

// Refused where the operation in a row is malformed.
pub fn operation_right<'a>(texts: Texts<'a>, nodes: &[Node], row: usize) -> Result<(), Refusal>
    ensures { OperationIs (before texts nodes.now) row result }
{
    let members = members_of(texts, nodes, row);
    let Some(kind) = kind_at(texts, nodes, row, members.op) else {
        return Err(Refusal::WrongShape);
    };
    members_right(texts, nodes, members, kind)
}
