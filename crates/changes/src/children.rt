// A node's child added, removed and replaced, by its token.
ghost use Rattle.pointer.specs.declared.answers.Index.TheVariants as Index;
ghost use Rattle.tape.specs.Lent.{before};
ghost use Rattle.changes.specs.Change.{InsertionIs, ReplaceTreeIs, AddElementIs, AddMemberIs, AddIs};
ghost use Rattle.changes.specs.Change.{RemoveIs, ReplaceIs, ChangeChildIs};

use crate::answers::Change;
use crate::parent::Parent;
use crate::trees;
use pointer::{Index, index};
use spec::refusal::{Fault, Refusal};
use table::find::find;
use table::spellings::part;
use tape::fields::{Name, name_of};
use tape::layout::{Node, Texts};
use tape::{layout, moves, nodes};
use walk::{no_name, step};

// The row where an element is added at a position. The position may be the one behind the last element.
fn position(nodes: &[Node], row: usize, k: usize) -> Result<usize, Refusal>
    ensures { InsertionIs nodes.now row (Index.At k) result }
{
    match nodes::child(nodes, row, k) {
        Ok(at) => Ok(at),
        Err(n) => {
            if n < k {
                return Err(Refusal::LocationMissing);
            }
            Ok(nodes::end_of(nodes, row))
        }
    }
}

// The row where an element is added.
fn insertion(nodes: &[Node], row: usize, i: Index) -> Result<usize, Refusal>
    ensures { InsertionIs nodes.now row i result }
{
    match i {
        Index::Dash => Ok(nodes::end_of(nodes, row)),
        Index::At(k) => position(nodes, row, k),
        Index::Beyond => Err(Refusal::LocationMissing),
        Index::Not => Err(Refusal::NoIndex),
    }
}

// An element is added to an array.
fn add_element<'a>(
    texts: Texts<'a>,
    nodes: &mut [Node],
    parent: Parent,
    token: Name,
    source: usize,
) -> Result<usize, Fault>
    ensures { AddElementIs (before texts nodes.old) nodes.new parent token source result }
{
    let i = index(part(texts, token.text));
    let at = parent.told(insertion(nodes, parent.row, i))?;
    trees::put(nodes, parent, at, 0, source, no_name())
}

// The child in the row `at` is replaced, and its name kept.
fn replace_child(
    nodes: &mut [Node],
    parent: Parent,
    at: usize,
    source: usize,
) -> Result<usize, Fault>
    ensures { ReplaceTreeIs nodes.old nodes.new parent at source result }
{
    let removed = trees::size(nodes, at);
    let name = name_of(moves::load(nodes, at));
    trees::put(nodes, parent, at, removed, source, name)
}

// A member is added to an object; one of the same name is replaced.
fn add_member<'a>(
    texts: Texts<'a>,
    nodes: &mut [Node],
    parent: Parent,
    token: Name,
    source: usize,
) -> Result<usize, Fault>
    ensures { AddMemberIs (before texts nodes.old) nodes.new parent token source result }
{
    let end = nodes::end_of(nodes, parent.row);
    match find(texts, nodes, parent.row + 1, end, token) {
        Some(at) => replace_child(nodes, parent, at, source),
        None => trees::put(nodes, parent, end, 0, source, token),
    }
}

fn add<'a>(
    texts: Texts<'a>,
    nodes: &mut [Node],
    parent: Parent,
    token: Name,
    source: usize,
) -> Result<usize, Fault>
    ensures { AddIs (before texts nodes.old) nodes.new parent token source result }
{
    match nodes::kind(nodes, parent.row) {
        layout::ARRAY => add_element(texts, nodes, parent, token, source),
        layout::OBJECT => add_member(texts, nodes, parent, token, source),
        _ => Err(Refusal::LocationMissing.at(parent.walked())),
    }
}

fn remove<'a>(
    texts: Texts<'a>,
    nodes: &mut [Node],
    parent: Parent,
    token: Name,
) -> Result<usize, Fault>
    ensures { RemoveIs (before texts nodes.old) nodes.new parent token result }
{
    let at = parent.told(step(texts, nodes, parent.row, token))?;
    trees::take_out(nodes, parent, at)
}

fn replace<'a>(
    texts: Texts<'a>,
    nodes: &mut [Node],
    parent: Parent,
    token: Name,
    source: usize,
) -> Result<usize, Fault>
    ensures { ReplaceIs (before texts nodes.old) nodes.new parent token source result }
{
    let at = parent.told(step(texts, nodes, parent.row, token))?;
    replace_child(nodes, parent, at, source)
}

// The parent's child that a token names, or is to name, is changed.
pub fn change_child<'a>(
    texts: Texts<'a>,
    nodes: &mut [Node],
    parent: Parent,
    token: Name,
    change: Change,
) -> Result<usize, Fault>
    ensures { ChangeChildIs (before texts nodes.old) nodes.new parent token change result }
{
    match change {
        Change::Add(source) => add(texts, nodes, parent, token, source),
        Change::Remove => remove(texts, nodes, parent, token),
        Change::Replace(source) => replace(texts, nodes, parent, token, source),
    }
}
