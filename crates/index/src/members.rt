// All members of a tree entered, each with its parent, and a member found again.
ghost use Rattle.std.specs.Prelude.{◌≡◌, true, ◌+◌, ◌≤◌, ◌<◌, [], length, get_or};
ghost use Rattle.tape.specs.Layout.{values, scratch_row};
ghost use Rattle.tape.specs.Fields.{span_of};
ghost use Rattle.tape.specs.Lent.{before};
ghost use Rattle.index.specs.Slots.{room, slots};
ghost use Rattle.index.specs.Members.{Indexed, TreeIndexed, NotedIs, LookupIs};

use crate::bits::{Bits, hash_bits, refilled};
use crate::slots;
use crate::ways::enter;
use table::find::same_name;
use tape::fields::{Name, name_of, wide};
use tape::layout;
use tape::layout::{Node, Texts};
use tape::moves::load;
use tape::nodes::kind;

// The row behind the tree that begins in a row.
fn behind(nodes: &[Node], row: usize) -> usize
    requires { row < scratch_row }
    ensures { (result ≡ row + 1 + span_of (get_or nodes.now row [])) × (result ≤ row + values) }
{
    if nodes.len() <= row {
        return row + 1;
    }
    row + 1 + wide(nodes[row][layout::SPAN])
}

// Where the node in the row `object` is an object, its members are entered, and their parent is noted.
fn index_object<'a>(texts: Texts<'a>, nodes: &[Node], index: &mut [u16], top: usize, object: usize)
    requires { (top ≤ object) × (object < scratch_row) × (object < top + room) × (slots ≤ length index.old) }
    ensures { Indexed top nodes.now index.old index.new }
{
    if kind(nodes, object) != layout::OBJECT {
        return;
    }
    let end = behind(nodes, object)
        .min(layout::SCRATCH)
        .min(top + slots::ROOM);
    let mut row = object + 1;
    while row < end {
        let name = name_of(load(nodes, row));
        enter(texts, nodes, index, top, object, row, name);
        slots::set_slot(index, slots::parent(row - top), object - top + 1);
        row = behind(nodes, row);
    }
}

// The index is emptied, and the members of the objects of the tree in the row `top` are entered: a hint for `lookup`.
pub fn index_tree<'a>(texts: Texts<'a>, nodes: &[Node], index: &mut [u16], top: usize)
    ensures { TreeIndexed top nodes.now index.old index.new }
{
    slots::empty(index);
    if index.len() < slots::SLOTS {
        return;
    }
    if layout::SCRATCH <= top {
        return;
    }
    let end = behind(nodes, top)
        .min(layout::SCRATCH)
        .min(top + slots::ROOM);
    for row in top..end {
        index_object(texts, nodes, index, top, row);
    }
}

// Whether the row `top + row` is noted as a child of the object in another row, and has the name.
fn is_noted<'a>(
    texts: Texts<'a>,
    nodes: &[Node],
    index: &[u16],
    top: usize,
    object: usize,
    name: Name,
    row: usize,
) -> bool
    requires { (top ≤ object) × (object ≤ scratch_row) × (row < room) }
    ensures { result ≡ true → NotedIs (before texts nodes.now) index.now top object name row }
{
    if slots::slot(index, slots::parent(row)) != object - top + 1 {
        return false;
    }
    same_name(texts, name_of(load(nodes, top + row)), name)
}

// A member of the object in a row that has the name, where the index finds one. It may miss one that is there.
pub fn lookup<'a>(
    texts: Texts<'a>,
    nodes: &[Node],
    index: &[u16],
    top: usize,
    object: usize,
    name: Name,
) -> Option<usize>
    ensures { LookupIs (before texts nodes.now) index.now top object name result }
{
    if object < top || layout::SCRATCH < object {
        return None;
    }
    let mut at = slots::bucket(object, name.hash);
    let mut last = 0;
    let mut bits = Bits {
        left: hash_bits(name.hash),
        next: 0,
    };
    loop {
        let row = slots::slot(index, at);
        if row <= last || slots::ROOM <= row {
            return None;
        }
        if is_noted(texts, nodes, index, top, object, name, row) {
            return Some(top + row);
        }
        let filled = refilled(texts, name, bits);
        at = slots::branch(row, filled.left % 2);
        bits = Bits {
            left: filled.left / 2,
            next: filled.next,
        };
        last = row;
    }
}
