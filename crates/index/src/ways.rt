// A member entered at the end of its name's search path.
ghost use Rattle.std.specs.Prelude.{◌<◌, ◌≤◌};
ghost use Rattle.tape.specs.Layout.{scratch_row};
ghost use Rattle.tape.specs.Lent.{before};
ghost use Rattle.index.specs.Slots.{room};
ghost use Rattle.index.specs.Ways.{Descended, DescendedByHash, Entered, EnteredByHash};

use crate::bits::{Bits, hash_bits, refilled};
use crate::slots;
use table::find::same_name;
use tape::fields::{Name, name_of};
use tape::layout;
use tape::layout::{Node, Texts};
use tape::moves::load;

// Where a search path ends, and whether a row on it has the name.
#[derive(Clone, Copy)]
pub struct Ending {
    slot: usize,
    same: bool,
}

// The path of a name from a slot on, as far as it leads through rows below `limit`.
fn descend<'a>(
    texts: Texts<'a>,
    nodes: &[Node],
    index: &[u16],
    base: usize,
    limit: usize,
    start: usize,
    name: Name,
) -> Ending
    requires { (base ≤ scratch_row) × (0 < limit) × (limit ≤ room) × (start < room) }
    ensures { Descended (before texts nodes.now) index.now base limit start name result }
{
    let mut at = start;
    let mut last = 0;
    let mut same = false;
    let mut bits = Bits {
        left: hash_bits(name.hash),
        next: 0,
    };
    loop {
        let row = slots::slot(index, at);
        if row <= last || limit <= row {
            return Ending { slot: at, same };
        }
        let other = name_of(load(nodes, base + row));
        same |= same_name(texts, other, name);
        let filled = refilled(texts, name, bits);
        at = slots::branch(row, filled.left % 2);
        bits = Bits {
            left: filled.left / 2,
            next: filled.next,
        };
        last = row;
    }
}

// A member of the object in the row `object` is entered: its row, and its name. The answer is whether a row on its
// path has the name. After false, no row that the path led to has it.
pub fn enter<'a>(
    texts: Texts<'a>,
    nodes: &[Node],
    index: &mut [u16],
    base: usize,
    object: usize,
    row: usize,
    name: Name,
) -> bool
    ensures { Entered (before texts nodes.now) index.old base object row name index.new result }
{
    if layout::SCRATCH < base || row <= base {
        return true;
    }
    let new = row - base;
    if slots::ROOM < new {
        return true;
    }
    let start = slots::bucket(object, name.hash);
    let ending = descend(texts, nodes, index, base, new, start, name);
    slots::set_slot(index, ending.slot, new);
    ending.same
}

// Where the path of a name ends, by its hash alone; None where a row on it has this hash too, or the hash has no bits
// left.
fn descend_by_hash(
    nodes: &[Node],
    index: &[u16],
    base: usize,
    limit: usize,
    start: usize,
    name: Name,
) -> Option<usize>
    requires { (base ≤ scratch_row) × (0 < limit) × (limit ≤ room) × (start < room) }
    ensures { DescendedByHash nodes.now index.now base limit start name result }
{
    let mut at = start;
    let mut last = 0;
    let mut left = hash_bits(name.hash);
    loop {
        let row = slots::slot(index, at);
        if row <= last || limit <= row {
            return Some(at);
        }
        let other = name_of(load(nodes, base + row));
        if other.hash == name.hash || left <= 1 {
            return None;
        }
        at = slots::branch(row, left % 2);
        left /= 2;
        last = row;
    }
}

// The same as `enter` where the hash of the name alone tells that no row on its path has the name: then the member is
// entered, and the answer is true. After false nothing has changed.
pub fn enter_by_hash(
    nodes: &[Node],
    index: &mut [u16],
    base: usize,
    object: usize,
    row: usize,
    name: Name,
) -> bool
    ensures { EnteredByHash nodes.now index.old base object row name index.new result }
{
    if layout::SCRATCH < base || row <= base {
        return false;
    }
    let new = row - base;
    if slots::ROOM < new {
        return false;
    }
    let start = slots::bucket(object, name.hash);
    let Some(slot) = descend_by_hash(nodes, index, base, new, start, name) else {
        return false;
    };
    slots::set_slot(index, slot, new);
    true
}
